//! The two temperature sensors of a heat meter, in the flow and in the return, and when they count energy.
#![tactic(auto)]

mod pair;
mod verdict;

pub use pair::Pair;
pub use verdict::Verdict;
