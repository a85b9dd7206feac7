ghost use Rattle.std.specs.Prelude.{◌≡◌};
ghost use Rattle.register_store.specs.declared.unreadable.Unreadable.TheVariants.{Memory};

use meter_board::Failed;
use thiserror::Error;

/// Why a memory could not be read.
#[derive(Clone, Copy, Debug, PartialEq, Eq, Error)]
pub enum Unreadable {
    /// The first byte of the memory is not the mark A5, but this one.
    #[error("the memory is unformatted, with byte {byte}")]
    Unformatted { byte: u8 },
    /// The field at this offset in the memory breaks its rule.
    #[error("the field at {at} is foreign")]
    Foreign { at: u32 },
    #[error("the memory failed")]
    Memory,
}

impl From<Failed> for Unreadable {
    ghost from_gives = { λ _ e. e ≡ Memory };

    fn from(_: Failed) -> Self {
        Unreadable::Memory
    }
}
