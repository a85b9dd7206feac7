//! Tests of configurations and of their texts.
#![tactic(auto)]

#[cfg(test)]
mod hostile;
#[cfg(test)]
mod standard;
#[cfg(test)]
mod texts;
