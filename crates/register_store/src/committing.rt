//! A record that takes the place of the one in force.

ghost use Rattle.std.specs.Prelude.{◌≡◌, ◌∷◌, [], IfOk, OnOk};
ghost use Rattle.memory_model.specs.Slot.{slot_size};
ghost use Rattle.config_model.specs.Configuration.{Configuration};
ghost use Rattle.metering_model.specs.Records as metering;
ghost use Rattle.billing_memory.specs.Records.{record_view};
ghost use Rattle.memory_model.specs.Stored.{Holds, slot_at, stored};
ghost use Rattle.trace_model.specs.Images.{NothingPending, SameOutside, replaced};
ghost use Rattle.trace_model.specs.Moments.{Leaves};
ghost use Rattle.meter_board.specs.Causes.{CausedBy, RefusalCause};
ghost use Rattle.register_store.specs.Commits.{HoldsBoth, HoldsEither, SlotHolds, StandsFor, StandsOn, gate_of, other};
ghost use Rattle.register_store.specs.Recovered.{side_view};
ghost use Rattle.register_store.specs.Works.{KeepsTo, StoresSettled};

use crate::Side;
use crate::layout::{GATE_AT, gate_byte, other_side, slot_place};
use crate::settling::store_settled;
use billing_memory::MeterRecord;
use meter_board::{Board, Refusal};
use state_codec::encode_record;

/// Lets the slot that isn't `side` hold the record. The record of `side` stays in force.
///
/// # Errors
/// [`Refusal::Failed`] where the memory failed, [`Refusal::Cut`] where the power failed. Then any bytes may
/// stand in that slot.
pub fn fill_slot<B: Board>(board: &mut B, side: Side, m: &MeterRecord) -> Result<(), Refusal>
    requires settled { B.tells → NothingPending (B.trace board.old) }
    requires stands { B.tells → StandsOn (side_view side) (B.reads board.old) }
    ensures moments { B.tells → KeepsTo (StandsFor (stored (B.reads board.old))) result (B.trace board.old) (B.trace board.new) (B.reads board.new) }
    ensures slot { B.tells → OnOk result (SlotHolds (other (side_view side)) (record_view m.now) (B.reads board.new)) }
    ensures same { B.tells → OnOk result (StandsFor (stored (B.reads board.old)) (B.reads board.new)) }
    ensures outside { B.tells → OnOk result (SameOutside (slot_at (other (side_view side))) slot_size (B.reads board.old) (B.reads board.new)) }
    ensures stores { B.tells → StoresSettled 1 result (B.trace board.old) (B.trace board.new) }
    ensures cause { CausedBy RefusalCause (B.faults board.old) (B.faults board.new) result }
{
    let filled = other_side(side);
    store_settled(board, slot_place(filled), &encode_record(m))
}

/// Lets the gate choose the slot that isn't `side`, so that its record is in force, and answers its side.
///
/// # Errors
/// [`Refusal::Failed`] where the memory failed, [`Refusal::Cut`] where the power failed. Then the record of
/// either slot may be in force.
pub fn turn_gate<B: Board>(board: &mut B, side: Side) -> Result<Side, Refusal>
    requires settled { B.tells → NothingPending (B.trace board.old) }
    requires stands { B.tells → StandsOn (side_view side) (B.reads board.old) }
    ensures moments { B.tells → (c : Configuration) (r r' : metering.MeterRecord) → HoldsBoth c (side_view side) r r' (B.reads board.old)
        → KeepsTo (HoldsEither c (side_view side) r r') result (B.trace board.old) (B.trace board.new) (B.reads board.new) }
    ensures ok { B.tells → (c : Configuration) (r r' : metering.MeterRecord) → HoldsBoth c (side_view side) r r' (B.reads board.old)
        → OnOk result (StandsFor (Holds c r' (other (side_view side))) (B.reads board.new)) }
    ensures gate { B.tells → OnOk result (B.reads board.new ≡ replaced (B.reads board.old) 256 (gate_of (other (side_view side)) ∷ [])) }
    ensures side { IfOk result (λ turned. side_view turned ≡ other (side_view side)) }
    ensures stores { B.tells → StoresSettled 1 result (B.trace board.old) (B.trace board.new) }
    ensures cause { CausedBy RefusalCause (B.faults board.old) (B.faults board.new) result }
{
    let turned = other_side(side);
    store_settled(board, GATE_AT, &[gate_byte(turned)])?;
    Ok(turned)
}

/// Lets the record take the place of the one in force, which stays in force until this one is settled in the slot
/// that isn't `side`. Answers the side of this slot.
///
/// # Errors
/// [`Refusal::Failed`] where the memory failed, [`Refusal::Cut`] where the power failed. Then either record
/// may be in force, and the memory is recovered before it is used again.
pub fn commit<B: Board>(board: &mut B, side: Side, m: &MeterRecord) -> Result<Side, Refusal>
    requires settled { B.tells → NothingPending (B.trace board.old) }
    requires stands { B.tells → StandsOn (side_view side) (B.reads board.old) }
    ensures moments { B.tells → (c : Configuration) (r : metering.MeterRecord) → StandsFor (Holds c r (side_view side)) (B.reads board.old)
        → KeepsTo (HoldsEither c (side_view side) r (record_view m.now)) result (B.trace board.old) (B.trace board.new) (B.reads board.new) }
    ensures ok { B.tells → (c : Configuration) (r : metering.MeterRecord) → StandsFor (Holds c r (side_view side)) (B.reads board.old)
        → OnOk result (StandsFor (Holds c (record_view m.now) (other (side_view side))) (B.reads board.new)) }
    ensures leaves { B.tells → (c : Configuration) (r : metering.MeterRecord) → StandsFor (Holds c r (side_view side)) (B.reads board.old)
        → OnOk result (Leaves (StandsFor (Holds c (record_view m.now) (other (side_view side)))) (B.trace board.new)) }
    ensures side { IfOk result (λ turned. side_view turned ≡ other (side_view side)) }
    ensures stores { B.tells → StoresSettled 2 result (B.trace board.old) (B.trace board.new) }
    ensures cause { CausedBy RefusalCause (B.faults board.old) (B.faults board.new) result }
{
    fill_slot(board, side, m)?;
    turn_gate(board, side)
}
