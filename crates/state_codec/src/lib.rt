//! The configuration and the record of a heat meter as bytes of its memory.
#![tactic(auto)]

mod entry;
mod fields;
mod foreign;
mod header_parts;
mod header_reading;
mod header_writing;
mod slot_parts;
mod slot_reading;
mod slot_writing;

pub use foreign::Foreign;
pub use header_reading::{HEADER_SIZE, decode_header};
pub use header_writing::encode_header;
pub use slot_reading::{SLOT_SIZE, decode_record};
pub use slot_writing::encode_record;
