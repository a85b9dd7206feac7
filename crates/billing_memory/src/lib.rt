//! What a heat meter remembers for billing: its days and their words, the entries at first days of months, and the
//! record that it keeps.
#![tactic(auto)]

mod day;
mod entry;
mod meter_record;
mod passing;
mod words;

pub use day::{Day, LAST_DAY, day_of, is_day};
pub use entry::Entry;
pub use meter_record::{DateBack, KEPT_MONTHS, MAX_EVENTS, MeterRecord};
pub use words::{date_word, digits_word};
