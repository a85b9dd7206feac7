//! A store that is settled at once.

ghost use Rattle.std.specs.Prelude.{◌≡◌, ◌+◌, ◌≤◌, length, OnOk};
ghost use Rattle.trace_model.specs.Images.{NothingPending, SameOutside, memory_size, replaced};
ghost use Rattle.meter_board.specs.Causes.{CausedBy, RefusalCause};
ghost use Rattle.register_store.specs.Works.{KeepsTo, StoresSettled};

use meter_board::{Board, Refusal};

/// Stores these bytes from `at` on, and settles them.
pub(crate) fn store_settled<B: Board>(board: &mut B, at: u32, bytes: &[u8]) -> Result<(), Refusal>
    requires fits { at + length bytes.now ≤ memory_size }
    requires settled { B.tells → NothingPending (B.trace board.old) }
    ensures ok { B.tells → OnOk result (B.reads board.new ≡ replaced (B.reads board.old) at bytes.now) }
    ensures stores { B.tells → StoresSettled 1 result (B.trace board.old) (B.trace board.new) }
    ensures moments { B.tells → KeepsTo (SameOutside at (length bytes.now) (B.reads board.old)) result (B.trace board.old) (B.trace board.new) (B.reads board.new) }
    ensures cause { CausedBy RefusalCause (B.faults board.old) (B.faults board.new) result }
{
    board.store(at, bytes)?;
    board.sync()
}
