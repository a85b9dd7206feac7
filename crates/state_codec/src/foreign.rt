use thiserror::Error;

/// A field of the memory breaks its rule.
#[derive(Clone, Copy, Debug, PartialEq, Eq, Error)]
#[error("the field at {at} is foreign")]
pub struct Foreign {
    /// The field's offset within the bytes that were read.
    pub at: u32,
}
