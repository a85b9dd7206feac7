use thiserror::Error;

/// Why a text isn't accepted as a configuration: the first of these causes, in this order.
#[derive(Clone, Copy, Debug, PartialEq, Eq, Error)]
pub enum ConfigFault {
    /// The text has more than 4,096 bytes.
    #[error("too long")]
    TooLong,
    /// The text is no JSON.
    #[error("text")]
    Text,
    /// The JSON value is no object.
    #[error("not an object")]
    NotObject,
    /// The key of this number is missing, and those before it are there with values that they may have.
    #[error("missing key {key}")]
    Missing { key: u8 },
    /// The key of this number has a value that it may not have, and those before it have ones that they may.
    #[error("wrong key {key}")]
    Wrong { key: u8 },
    /// The object has another key. `place` counts the object's keys before the first such key, in the order
    /// of their bytes.
    #[error("unknown key {place}")]
    Unknown { place: u32 },
    /// There isn't enough memory to read the text.
    #[error("out of memory")]
    OutOfMemory,
}
