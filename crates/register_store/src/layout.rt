//! Where the parts of the memory stand.

ghost use Rattle.std.specs.Prelude.{◌≡◌, ◌≤◌};
ghost use Rattle.memory_model.specs.Stored.{mark, side_of, slot_at};
ghost use Rattle.register_store.specs.Commits.{gate_of, other};
ghost use Rattle.register_store.specs.Recovered.{side_view};

use crate::Side;

/// The first byte of a memory that is formatted.
pub(crate) const MARK: u8 = 0xa5;

/// The place of the gate, whose lowest bit chooses the slot.
pub(crate) const GATE_AT: u32 = 256;

/// The slot that a gate chooses.
pub(crate) fn side_of_gate(gate: u8) -> Side
    ensures { side_view result ≡ side_of gate }
{
    if gate % 2 == 0 { Side::A } else { Side::B }
}

/// The gate that is stored to choose a slot.
pub(crate) fn gate_byte(side: Side) -> u8
    ensures { result ≡ gate_of (side_view side) }
{
    match side {
        Side::A => 0,
        Side::B => 1,
    }
}

/// The slot that a side isn't.
pub(crate) fn other_side(side: Side) -> Side
    ensures { side_view result ≡ other (side_view side) }
{
    match side {
        Side::A => Side::B,
        Side::B => Side::A,
    }
}

/// The place of a slot.
pub(crate) fn slot_place(side: Side) -> u32
    ensures place { result ≡ slot_at (side_view side) }
    ensures low { result ≤ 2048 }
{
    match side {
        Side::A => 512,
        Side::B => 2_048,
    }
}
