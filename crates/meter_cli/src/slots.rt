//! The command `slots`.
ghost use Rattle.std.specs.Prelude.{◌≡◌, ◌<◌, ◌≤◌, ◌++◌, codes, length};
ghost use Rattle.std.specs.Fmt.{decimal};
ghost use Rattle.meter_board.specs.Causes.{Rose};
ghost use Rattle.register_store.specs.Looks.{gate_view, slot_view};
ghost use Rattle.meter_cli.specs.Ends.{EndsShow};
ghost use Rattle.answer_lines.specs.Texts.{NoneEmpty, bytes_of};
ghost use Rattle.meter_cli.specs.Slots.{SlotsLeaves, gate_text, slot_text, slots_lines};

use crate::puts::put_lines;
use crate::status::{Status, unreadable_status};
use answer_lines::LINE_ROOM;
use arrayvec::ArrayString;
use itoa::Buffer;
use meter_board::Board;
use register_store::{Slots, look};
use state_codec::Foreign;

/// Puts what stands in both slots of the memory, one line by each put: the side that the gate chooses, and of each slot
/// the number of events of its record, or the offset in the memory of its first field that breaks its rule.
pub fn slots<B: Board>(board: &mut B) -> Status
    ensures leaves { B.tells → SlotsLeaves (B.reads board.old) (B.trace board.old) (B.trace board.new) result }
    ensures memory { result ≡ Status.Memory → Rose (B.faults board.old).memory (B.faults board.new).memory }
    ensures write { result ≡ Status.Write → Rose (B.faults board.old).output (B.faults board.new).output }
    ensures ends { EndsShow result }
{
    match look(board) {
        Ok(slots) => put_lines(board, slots_lines(&slots).as_slice()),
        Err(reason) => unreadable_status(reason),
    }
}

fn slots_lines(slots: &Slots) -> [ArrayString<LINE_ROOM>; 3]
    ensures lines { bytes_of result ≡ slots_lines (gate_view slots.now.odd) (slot_view slots.now.a) (slot_view slots.now.b) }
    ensures some { NoneEmpty result }
{
    [
        gate_line(slots.odd),
        slot_line("a", slots.a),
        slot_line("b", slots.b),
    ]
}

// The side that the gate chooses by its lowest bit.
fn gate_line(odd: bool) -> ArrayString<LINE_ROOM>
    ensures text { result.bytes ≡ gate_text (gate_view odd) }
    ensures some { 0 < length result.bytes }
{
    let mut line = ArrayString::new();
    line.push_str(if odd { "gate b\n" } else { "gate a\n" });
    line
}

// What stands in a slot.
fn slot_line(name: &str, slot: Result<u64, Foreign>) -> ArrayString<LINE_ROOM>
    requires { length name.now ≤ 10 }
    ensures text { result.bytes ≡ slot_text name.now (slot_view slot) }
    ensures some { 0 < length result.bytes }
{
    match slot {
        Ok(events) => numbered(name, " ", events),
        Err(foreign) => numbered(name, " foreign ", u64::from(foreign.at)),
    }
}

fn numbered(name: &str, words: &str, number: u64) -> ArrayString<LINE_ROOM>
    requires name { length name.now ≤ 10 }
    requires words { length words.now ≤ 10 }
    ensures text { result.bytes ≡ name.now ++ words.now ++ decimal number ++ codes "\n" }
    ensures some { 0 < length result.bytes }
{
    let mut digits = Buffer::new();
    let mut line = ArrayString::new();
    line.push_str(name);
    line.push_str(words);
    line.push_str(digits.format(number));
    line.push_str("\n");
    line
}
