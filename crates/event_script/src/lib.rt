//! The lines of a script: what each says, or why it is refused.
#![tactic(auto)]

mod buffer;
mod lines;
mod message;
mod next;
mod number;
mod read;
mod words;

use billing_memory::Day;
pub use lines::Lines;
pub use message::Message;
pub use next::Next;
pub use number::number_word;
pub use read::read_line;
use thiserror::Error;

/// A metering event.
#[derive(Clone, Copy, Debug, PartialEq, Eq)]
pub enum Event {
    /// Samples of the sensors in flow and return, in microohms.
    Sample { rf: u32, rr: u32 },
    /// `n` pulses of the flow sensor, 1 to 10^15.
    Pulse { n: u64 },
    /// A new day.
    Date { day: Day },
}

/// What a line of a script says. The bytes of an `opt` or `mbus` line stand beside it.
#[derive(Clone, Copy, Debug, PartialEq, Eq)]
pub enum Line {
    /// A metering event.
    Metering(Event),
    /// The power fails.
    Power,
    /// A cut of the power is ordered: within the `n`-th store or sync from now on, 1 to 65,535. Of that store the first
    /// `keep` bytes are written, at most 16,384, and the byte `fill` in the place of each other one.
    Cut { n: u16, keep: u16, fill: u8 },
    /// A message to the optical head.
    Opt,
    /// Bytes on the M-Bus.
    Mbus,
}

/// A line outside the grammar, with the place of its first wrong, missing or extra word, counted from 0.
#[derive(Clone, Copy, Debug, PartialEq, Eq, Error)]
#[error("word {at}")]
pub struct Grammar {
    pub at: u8,
}

/// Why a line of a script is refused.
#[derive(Clone, Copy, Debug, PartialEq, Eq, Error)]
pub enum LineFault {
    /// The line is outside the grammar, with the place of its first wrong, missing or extra word, counted from 0.
    #[error("word {at}")]
    Grammar { at: u8 },
    /// The day is before the one in force.
    #[error("the day is before day {} in force", .in_force.number)]
    DateBack { in_force: Day },
    /// The register would have `sum` pulses, more than 10^15.
    #[error("pulses {sum}")]
    PulsesFull { sum: u64 },
    /// The record has `seq` events, 10^18, and takes no more.
    #[error("events {seq}")]
    EventsFull { seq: u64 },
    /// The line has more than 120 bytes.
    #[error("too long")]
    TooLong,
    /// The line stands behind a million lines.
    #[error("too many")]
    TooMany,
    /// The line is a readout, a failure of the power or the order of one, which a run without a memory doesn't have.
    #[error("not in dry")]
    NotDry,
}
