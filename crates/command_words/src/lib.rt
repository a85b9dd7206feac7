//! The words of the command line, and the command that they say.
#![tactic(auto)]

mod job;
mod words;

pub use job::{
    CalculatorTest, FlowTest, HeatCoefficient, Job, Load, PairTest, Query, Sample, Usage,
    WaterState,
};
pub use words::command;
