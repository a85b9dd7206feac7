//! A reader of a heat meter's readouts: telegrams of the M-Bus (EN 13757-2 and -3), and data messages
//! of the optical head (IEC 62056-21). It takes no memory.
#![tactic(auto)]

mod bad_place;
mod broken;
mod coding;
mod entries;
mod laws;
mod lines;
mod mbus_fields;
mod message;
mod optical_fields;
mod record;
mod records;
mod telegram;
mod telegram_rules;
mod texts;
mod value;

pub use bad_place::BadPlace;
pub use laws::{an_end_can_be_mended, data_messages_are_read, telegrams_are_read};
pub use mbus_fields::{Kind, MbusFields, Rec};
pub use message::read_optical;
pub use optical_fields::{Number, OpticalFields, Shown};
pub use telegram::read_mbus;
