//! The parts of a memory, loaded and read.

ghost use Rattle.std.specs.Prelude.{◌≡◌, IfOk, slice_index};
ghost use Rattle.meter_board.specs.Causes.{CausedBy, MemoryCause};
ghost use Rattle.register_store.specs.Faults.{UnreadableCause};
ghost use Rattle.register_store.specs.Loads.{HeaderGives, SlotGives};
ghost use Rattle.register_store.specs.Recovered.{side_view};

use crate::layout::{GATE_AT, MARK, slot_place};
use crate::{Side, Unreadable};
use billing_memory::MeterRecord;
use meter_board::{Board, Failed};
use meter_config::Config;
use state_codec::{Foreign, decode_header, decode_record};

/// The configuration in the header.
///
/// # Errors
/// [`Unreadable::Unformatted`] where the first byte is not the mark. [`Unreadable::Foreign`] with the offset of the
/// first field that breaks its rule. [`Unreadable::Memory`] where the memory failed.
pub(crate) fn load_header<B: Board>(board: &mut B) -> Result<Config, Unreadable>
    ensures gives { B.tells → HeaderGives result (B.reads board.old) }
    ensures trace { B.tells → B.trace board.new ≡ B.trace board.old }
    ensures reads { B.tells → B.reads board.new ≡ B.reads board.old }
    ensures cause { CausedBy UnreadableCause (B.faults board.old) (B.faults board.new) result }
{
    let mut header = [0; 256];
    board.load(0, &mut header)?;
    if header[0] != MARK {
        return Err(Unreadable::Unformatted { byte: header[0] });
    }
    match decode_header(&header) {
        Ok(config) => Ok(config),
        Err(foreign) => Err(Unreadable::Foreign { at: foreign.at }),
    }
}

/// The byte of the gate, whose lowest bit chooses the slot of the record in force.
pub(crate) fn load_gate<B: Board>(board: &mut B) -> Result<u8, Failed>
    ensures gives { B.tells → IfOk result (λ gate. gate ≡ slice_index (B.reads board.old) 256) }
    ensures trace { B.tells → B.trace board.new ≡ B.trace board.old }
    ensures reads { B.tells → B.reads board.new ≡ B.reads board.old }
    ensures cause { CausedBy MemoryCause (B.faults board.old) (B.faults board.new) result }
{
    let mut gate = [0; 1];
    board.load(GATE_AT, &mut gate)?;
    Ok(gate[0])
}

/// The record in the slot of a side, or the offset in the memory of the first field there that breaks its rule.
pub(crate) fn load_slot<B: Board>(
    board: &mut B,
    side: Side,
) -> Result<Result<MeterRecord, Foreign>, Failed>
    ensures gives { B.tells → IfOk result (λ read. SlotGives (side_view side) read (B.reads board.old)) }
    ensures trace { B.tells → B.trace board.new ≡ B.trace board.old }
    ensures reads { B.tells → B.reads board.new ≡ B.reads board.old }
    ensures cause { CausedBy MemoryCause (B.faults board.old) (B.faults board.new) result }
{
    let place = slot_place(side);
    let mut slot = [0; 1_280];
    board.load(place, &mut slot)?;
    match decode_record(&slot) {
        Ok(record) => Ok(Ok(record)),
        Err(foreign) => Ok(Err(Foreign {
            at: place + foreign.at,
        })),
    }
}
