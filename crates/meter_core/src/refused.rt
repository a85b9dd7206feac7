use billing_memory::Day;
use thiserror::Error;

/// Why a meter does not take an event.
#[derive(Clone, Copy, Debug, PartialEq, Eq, Error)]
pub enum Refused {
    /// The record has `seq` events, 10^18, and takes no more.
    #[error("the record has {seq} events")]
    EventsFull { seq: u64 },
    /// The day is before the one in force.
    #[error("the day is before day {} in force", .in_force.number)]
    DateBack { in_force: Day },
    /// The register would have `sum` pulses, more than 10^15.
    #[error("the register would have {sum} pulses")]
    PulsesFull { sum: u64 },
}
