//! The meter as a machine: a configuration, a record, and the events that the record takes.
#![tactic(auto)]

mod meter;
mod refused;

pub use meter::Meter;
pub use refused::Refused;
