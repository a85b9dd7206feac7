//! Tests of the boards and the sources: in memory, over a file and standard input.
#![tactic(auto)]

#[cfg(test)]
mod calls;
#[cfg(test)]
mod cuts;
#[cfg(test)]
mod edge;
#[cfg(test)]
mod file_cuts;
#[cfg(test)]
mod steps;
#[cfg(test)]
mod typed;
#[cfg(test)]
mod watched;
