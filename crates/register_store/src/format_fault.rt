ghost use Rattle.std.specs.Prelude.{◌≡◌};
ghost use Rattle.register_store.specs.declared.format_fault.FormatFault.TheVariants.{Memory};

use meter_board::{Failed, Refusal};
use thiserror::Error;

/// Why a memory could not be formatted.
#[derive(Clone, Copy, Debug, PartialEq, Eq, Error)]
pub enum FormatFault {
    /// The first byte of the memory is the mark A5 already.
    #[error("the memory is formatted")]
    Formatted,
    #[error("the memory failed")]
    Memory,
    #[error("the power failed")]
    Cut,
}

impl From<Failed> for FormatFault {
    ghost from_gives = { λ _ e. e ≡ Memory };

    fn from(_: Failed) -> Self {
        FormatFault::Memory
    }
}

impl From<Refusal> for FormatFault {
    ghost use Rattle.register_store.specs.Faults.{fault_of};

    ghost from_gives = { λ r e. e ≡ fault_of r };

    fn from(refusal: Refusal) -> Self {
        match refusal {
            Refusal::Failed => FormatFault::Memory,
            Refusal::Cut => FormatFault::Cut,
        }
    }
}
