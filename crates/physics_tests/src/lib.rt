//! Tests of the numbers and the physics, by values that were computed apart from the program.
#![tactic(auto)]

#[cfg(test)]
mod curves;
#[cfg(test)]
mod heat;
#[cfg(test)]
mod limits;
#[cfg(test)]
mod numbers;
#[cfg(test)]
mod pairs;
#[cfg(test)]
mod rates;
#[cfg(test)]
mod slopes;
#[cfg(test)]
mod tables;
#[cfg(test)]
mod water;
