use thiserror::Error;

/// Why a call on the memory that writes was refused, and a count rose.
#[derive(Clone, Copy, Debug, PartialEq, Eq, Error)]
pub enum Refusal {
    #[error("the memory failed")]
    Failed,
    #[error("the power failed")]
    Cut,
}
