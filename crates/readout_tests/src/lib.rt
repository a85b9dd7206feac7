//! Tests of the readouts: the optical head, the slave on the M-Bus, and their reader.
#![tactic(auto)]

#[cfg(test)]
mod head;
#[cfg(test)]
mod reader;
#[cfg(test)]
mod slave;
