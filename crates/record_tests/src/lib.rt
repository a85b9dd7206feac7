//! Tests of what a meter counts and remembers, and of its frames on the M-Bus.
#![tactic(auto)]

#[cfg(test)]
mod displays;
#[cfg(test)]
mod frames;
#[cfg(test)]
mod months;
#[cfg(test)]
mod registers;
