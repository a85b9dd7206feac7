ghost use Rattle.std.specs.Prelude.{◌≡◌, ℕ, ◌<◌, ◌≤◌, List, length, IfOk};
ghost use Rattle.meter_board.specs.Causes.{HasCause};
ghost use Rattle.meter_board.specs.Reads.{ReadGives};

use thiserror::Error;

/// A call on the outside failed, and a count of such faults rose.
#[derive(Clone, Copy, Debug, PartialEq, Eq, Error)]
#[error("the call failed")]
pub struct Failed;

/// Bytes that are read in order.
pub trait Source {
    /// Whether sources of this type tell the bytes that are left. Where it does not hold, nothing is known of them.
    ghost tells: { Type 0 };

    /// The bytes that are left.
    ghost left: { Self → List ℕ };

    /// How many reads have failed, up to 2^64 - 1.
    ghost faults: { Self → ℕ };

    /// Reads some bytes into the front of `into` and answers how many, none only at the end.
    ///
    /// # Errors
    /// [`Failed`] where the read failed: nothing is taken, and the count of faults rose.
    fn read(&mut self, into: &mut [u8]) -> Result<usize, Failed>
        requires { 0 < length into.old }
        ensures bound { IfOk result (λ n. n ≤ length into.new) }
        ensures gives { tells → ReadGives (left self.old) (left self.new) result into.new }
        ensures cause { HasCause (faults self.old) (faults self.new) result };
}
