//! A look at both slots of a memory.

ghost use Rattle.std.specs.Prelude.{◌≡◌, IfOk};
ghost use Rattle.memory_model.specs.Slots.{events_on};
ghost use Rattle.meter_board.specs.Causes.{CausedBy, MemoryCause};
ghost use Rattle.register_store.specs.Faults.{UnreadableCause};
ghost use Rattle.register_store.specs.Looks.{LookGives, slot_view};
ghost use Rattle.register_store.specs.Recovered.{side_view};

use crate::loading::{load_gate, load_header, load_slot};
use crate::{Side, Unreadable};
use meter_board::{Board, Failed};
use state_codec::Foreign;

/// What stands in the two slots of a memory, of which the gate chooses one.
#[derive(Clone, Copy, Debug, PartialEq, Eq)]
pub struct Slots {
    /// Whether the byte of the gate is odd: it chooses slot B then, and slot A else.
    pub odd: bool,
    /// The number of events of the record in slot A, or the offset in the memory of its first field that breaks its
    /// rule.
    pub a: Result<u64, Foreign>,
    /// The same of slot B.
    pub b: Result<u64, Foreign>,
}

/// What stands in both slots of the memory, whichever holds the record in force. It loads alone.
///
/// # Errors
/// [`Unreadable::Unformatted`] where the first byte is not the mark. [`Unreadable::Foreign`] with the offset of the
/// first field of the header that breaks its rule. [`Unreadable::Memory`] where the memory failed.
pub fn look<B: Board>(board: &mut B) -> Result<Slots, Unreadable>
    ensures gives { B.tells → LookGives result (B.reads board.old) }
    ensures trace { B.tells → B.trace board.new ≡ B.trace board.old }
    ensures reads { B.tells → B.reads board.new ≡ B.reads board.old }
    ensures cause { CausedBy UnreadableCause (B.faults board.old) (B.faults board.new) result }
{
    load_header(board)?;
    let gate = load_gate(board)?;
    let a = events_in(board, Side::A)?;
    let b = events_in(board, Side::B)?;
    Ok(Slots {
        odd: gate % 2 == 1,
        a,
        b,
    })
}

// The number of events of the record in the slot of a side, or the offset in the memory of the first field there that
// breaks its rule.
fn events_in<B: Board>(board: &mut B, side: Side) -> Result<Result<u64, Foreign>, Failed>
    ensures gives { B.tells → IfOk result (λ read. events_on (side_view side) (B.reads board.old) ≡ slot_view read) }
    ensures trace { B.tells → B.trace board.new ≡ B.trace board.old }
    ensures reads { B.tells → B.reads board.new ≡ B.reads board.old }
    ensures cause { CausedBy MemoryCause (B.faults board.old) (B.faults board.new) result }
{
    match load_slot(board, side)? {
        Ok(record) => Ok(Ok(record.seq)),
        Err(foreign) => Ok(Err(foreign)),
    }
}
