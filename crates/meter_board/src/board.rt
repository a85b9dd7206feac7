ghost use Rattle.std.specs.Prelude.{◌≡◌, ℕ, ◌+◌, ◌<◌, ◌≤◌, List, length, take, drop, OnOk};
ghost use Rattle.trace_model.specs.Trace.{Trace, base_of};
ghost use Rattle.trace_model.specs.Images.{IsImage, memory_size};
ghost use Rattle.meter_board.specs.declared.fault_counts.FaultCounts.{FaultCounts};
ghost use Rattle.meter_board.specs.Causes.{CausedBy, MemoryCause, OutputCause, RefusalCause, one_more};
ghost use Rattle.meter_board.specs.Puts.{PutGives};
ghost use Rattle.meter_board.specs.Stores.{ArmGives, PowerGives, StoreGives, SyncGives};

use crate::{Failed, Refusal};

/// The board of a meter: a memory of 16,384 bytes, and its output.
pub trait Board {
    /// Whether boards of this type tell their trace and what they read. Where it does not hold, nothing is known
    /// of these.
    ghost tells: { Type 0 };

    /// What happened to the board since it was handed in.
    ghost trace: { Self → Trace };

    /// The 16,384 bytes that the memory reads now.
    ghost reads: { Self → List ℕ };

    /// How many calls on the memory were made, those that failed or were cut too, up to 2^64 - 1. Every board tells it.
    ghost memory_calls: { Self → ℕ };

    /// How many calls on the memory and how many puts have failed, and how many calls on the memory were cut. Every board
    /// tells it.
    ghost faults: { Self → FaultCounts };

    /// Reads the bytes of the memory from `at` on into `into`.
    ///
    /// # Errors
    /// [`Failed`] where the memory failed: the count of memory faults rose, and `into` may hold anything.
    fn load(&mut self, at: u32, into: &mut [u8]) -> Result<(), Failed>
        requires { at + length into.old ≤ memory_size }
        ensures memory_calls { memory_calls self.new ≡ one_more (memory_calls self.old) }
        ensures bytes { tells → OnOk result (into.new ≡ take (length into.old) (drop at (reads self.old))) }
        ensures trace { tells → trace self.new ≡ trace self.old }
        ensures reads { tells → reads self.new ≡ reads self.old }
        ensures cause { CausedBy MemoryCause (faults self.old) (faults self.new) result };

    /// Stores these bytes in the memory from `at` on. They are settled by the next [`Board::sync`].
    ///
    /// # Errors
    /// [`Refusal::Failed`] where the memory failed: nothing was stored, or any bytes stand in the range now, and
    /// the count of memory faults rose. [`Refusal::Cut`] where the power failed, and the count of cuts rose.
    fn store(&mut self, at: u32, bytes: &[u8]) -> Result<(), Refusal>
        requires { at + length bytes.now ≤ memory_size }
        ensures memory_calls { memory_calls self.new ≡ one_more (memory_calls self.old) }
        ensures gives { tells → StoreGives at bytes.now (trace self.old) (reads self.old) result (trace self.new) (reads self.new) }
        ensures cause { CausedBy RefusalCause (faults self.old) (faults self.new) result };

    /// Settles all that was stored.
    ///
    /// # Errors
    /// [`Refusal::Failed`] where the memory failed: nothing more is settled than before, and the count of memory
    /// faults rose. [`Refusal::Cut`] where the power failed, and the count of cuts rose.
    fn sync(&mut self) -> Result<(), Refusal>
        ensures memory_calls { memory_calls self.new ≡ one_more (memory_calls self.old) }
        ensures gives { tells → SyncGives (trace self.old) (reads self.old) result (trace self.new) (reads self.new) }
        ensures cause { CausedBy RefusalCause (faults self.old) (faults self.new) result };

    /// Puts these bytes out.
    ///
    /// # Errors
    /// [`Failed`] where the output failed: a front of the bytes went out, or nothing, and the count of output faults rose.
    fn put(&mut self, bytes: &[u8]) -> Result<(), Failed>
        requires { 0 < length bytes.now }
        ensures memory_calls { memory_calls self.new ≡ memory_calls self.old }
        ensures gives { tells → PutGives (trace self.old) bytes.now result (trace self.new) }
        ensures reads { tells → reads self.new ≡ reads self.old }
        ensures cause { CausedBy OutputCause (faults self.old) (faults self.new) result };

    /// Orders a cut of the power: within the n-th call of [`Board::store`] or [`Board::sync`] from now on, of whose
    /// range the first `keep` bytes are written then, and `fill` stands in the others. A new order takes the place of
    /// one that waits.
    ///
    /// # Errors
    /// [`Failed`] where the memory failed: nothing was ordered, and the count of memory faults rose.
    fn arm(&mut self, n: u16, keep: u16, fill: u8) -> Result<(), Failed>
        requires { 1 ≤ n }
        ensures memory_calls { memory_calls self.new ≡ one_more (memory_calls self.old) }
        ensures gives { tells → ArmGives n keep fill (trace self.old) result (trace self.new) }
        ensures reads { tells → reads self.new ≡ reads self.old }
        ensures cause { CausedBy MemoryCause (faults self.old) (faults self.new) result }
        ensures cuts { (faults self.new).cuts ≡ (faults self.old).cuts };

    /// Cuts the power now.
    ///
    /// # Errors
    /// [`Failed`] where the memory failed: the power was not cut, and the count of memory faults rose.
    fn power(&mut self) -> Result<(), Failed>
        ensures memory_calls { memory_calls self.new ≡ one_more (memory_calls self.old) }
        ensures gives { tells → PowerGives (trace self.old) (reads self.old) result (trace self.new) (reads self.new) }
        ensures cause { CausedBy MemoryCause (faults self.old) (faults self.new) result }
        ensures cuts { (faults self.new).cuts ≡ (faults self.old).cuts };

    /// The memory had its size when the board was handed in.
    ghost whole: { (board : Self) → tells → length (base_of (trace board)) ≡ memory_size };

    /// What the memory reads is one of the images that are possible.
    ghost possible: { (board : Self) → tells → IsImage (trace board) (reads board) };
}
