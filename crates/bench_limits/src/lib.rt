//! The limits of a test bench: whether a calculator, a pair of temperature sensors or a flow sensor indicates
//! too much or too little.
#![tactic(auto)]

mod calculator;
mod flow;
mod judged;
mod pair;
mod verdict;

pub use calculator::judge_point;
pub use flow::judge_flow;
pub use judged::Judged;
pub use pair::judge_pair;
