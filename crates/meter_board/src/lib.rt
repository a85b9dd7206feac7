//! The outside of the meter: what it reads from, and the board that it works on, with its memory and output.
//!
//! Both are traits, so that a contract can speak of every source and every board, of those in
//! memory, which tell all that happens to them, and of standard input and files, which tell nothing.
#![tactic(auto)]

mod arm;
mod board;
mod call_counts;
mod counts;
mod fault_counts;
mod file_board;
mod history;
mod mark;
mod refusal;
mod sim_board;
mod slice_source;
mod source;
mod std_source;

pub use board::Board;
pub use fault_counts::FaultCounts;
pub use file_board::FileBoard;
pub use refusal::Refusal;
pub use sim_board::{Call, CallKind, Output, SimBoard};
pub use slice_source::SliceSource;
pub use source::{Failed, Source};
pub use std_source::StdSource;
