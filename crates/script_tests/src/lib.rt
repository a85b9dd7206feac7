//! Tests of the lines of scripts, and of the meter that takes their events.
#![tactic(auto)]

#[cfg(test)]
mod generated;
#[cfg(test)]
mod lines;
#[cfg(test)]
mod meters;
#[cfg(test)]
mod words;
