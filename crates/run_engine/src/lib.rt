//! The commands that take a script.
#![tactic(auto)]

mod answering;
mod answers;
mod events;
mod laws;
mod on_memory;
mod station;
mod stop;
mod text;
mod without_memory;

use event_script::LineFault;
pub use laws::{
    fitting_events_are_near, held_energy_is_bounded, histories_join, lines_decide_the_journal,
    temperatures_exist,
};
pub use on_memory::run;
pub use without_memory::dry;

/// How a command that takes a script ended.
#[derive(Clone, Copy, Debug, PartialEq, Eq)]
pub enum Ended {
    /// Each line of the script has its output line.
    Done,
    /// Line `n` of the script, counted from 1, is the first that is refused.
    Line { n: u32, kind: LineFault },
    /// The memory failed, and the board's count of memory faults rose.
    Memory,
    /// The source failed, and its count of faults rose.
    Read,
    /// The output failed, and the board's count of output faults rose.
    Write,
    /// The first byte of the memory is not the mark A5, but this one.
    Unformatted { byte: u8 },
    /// The field at this offset in the memory breaks its rule.
    Foreign { at: u32 },
}
