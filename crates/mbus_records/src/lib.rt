//! A heat meter as a slave on the M-Bus (EN 13757-2 and -3): what its telegrams say, and when it
//! says them.
#![tactic(auto)]

mod compose;
mod months;
mod order;
mod push;
mod reading;
mod slave;
mod temps;

pub use compose::telegram;
pub use slave::Slave;
