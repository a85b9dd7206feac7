//! A long valid script, generated from a number, for trials of a meter under load.
#![tactic(auto)]

mod event;
mod script;

pub use script::Script;
