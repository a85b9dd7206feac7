//! The memory of a heat meter: a header, a gate, and two slots for its record, of which the gate chooses one.
#![tactic(auto)]

mod committing;
mod format_fault;
mod formatting;
mod layout;
mod loading;
mod looking;
mod recovery;
mod settling;
mod side;
mod unreadable;

pub use committing::{commit, fill_slot, turn_gate};
pub use format_fault::FormatFault;
pub use formatting::format;
pub use looking::{Slots, look};
pub use recovery::recover;
pub use side::Side;
pub use unreadable::Unreadable;
