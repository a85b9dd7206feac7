//! Tests of a meter's memory: its bytes, and what is stored and recovered.
#![tactic(auto)]

#[cfg(test)]
mod codec;
#[cfg(test)]
mod hostile;
#[cfg(test)]
mod store;
