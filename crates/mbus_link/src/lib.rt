//! Frames of the M-Bus link layer (EN 13757-2), read from bytes and written to them.
#![tactic(auto)]

mod frame;
mod reading;
mod writing;

pub use frame::Frame;
pub use reading::parse;
pub use writing::write;
