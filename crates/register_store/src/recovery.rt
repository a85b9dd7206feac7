//! What a memory stands for.

ghost use Rattle.std.specs.Prelude.{◌≡◌};
ghost use Rattle.meter_board.specs.Causes.{CausedBy};
ghost use Rattle.register_store.specs.Faults.{UnreadableCause};
ghost use Rattle.register_store.specs.Recovered.{RecoverGives};

use crate::layout::side_of_gate;
use crate::loading::{load_gate, load_header, load_slot};
use crate::{Side, Unreadable};
use billing_memory::MeterRecord;
use meter_board::Board;
use meter_config::Config;

/// The configuration and the record that the memory holds, and the slot of the record. It loads alone.
///
/// # Errors
/// [`Unreadable::Unformatted`] where the first byte is not the mark. [`Unreadable::Foreign`] with the offset in
/// the memory of the first field that breaks its rule. [`Unreadable::Memory`] where the memory failed.
pub fn recover<B: Board>(board: &mut B) -> Result<(Config, MeterRecord, Side), Unreadable>
    ensures gives { B.tells → RecoverGives result (B.reads board.old) }
    ensures trace { B.tells → B.trace board.new ≡ B.trace board.old }
    ensures reads { B.tells → B.reads board.new ≡ B.reads board.old }
    ensures cause { CausedBy UnreadableCause (B.faults board.old) (B.faults board.new) result }
{
    let config = load_header(board)?;
    let gate = load_gate(board)?;
    let side = side_of_gate(gate);
    match load_slot(board, side)? {
        Ok(record) => Ok((config, record, side)),
        Err(foreign) => Err(Unreadable::Foreign { at: foreign.at }),
    }
}
