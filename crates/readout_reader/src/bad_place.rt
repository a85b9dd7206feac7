use thiserror::Error;

/// The bytes are no such readout. The place of the first of them that breaks a rule, from 0, or the
/// number of bytes where the input ends too early.
#[derive(Clone, Copy, Debug, PartialEq, Eq, Error)]
#[error("bad readout at {at}")]
pub struct BadPlace {
    pub at: u32,
}
