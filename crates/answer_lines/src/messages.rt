//! The lines that show what data messages say.
ghost use Rattle.std.specs.Prelude.{◌≡◌, ◌<◌, ◌≤◌, ◌+◌, ◌++◌, List, ℕ, length};
ghost use Rattle.std.specs.List.{All};
ghost use Rattle.arrayvec.specs.ArrayVec.{array_vec_len};
ghost use Rattle.calendar_model.specs.Texts.{two_digits};
ghost use Rattle.readout_reader.specs.Views.{message_view, number_view, shown_list, shown_view};
ghost use Rattle.answer_lines.specs.Texts.{NoneEmpty, bytes_of};
ghost use Rattle.answer_lines.specs.ReadLines.{AreFirstLines, AreMessageLines, AreShownLines, IsDisplay, IsLegible, IsShowable, IsShownLine, number_text};

use crate::line::{LINE_ROOM, labelled};
use arrayvec::{ArrayString, ArrayVec};
use energy_register::digits_text;
use readout_reader::{Number, OpticalFields, Shown};

/// The most lines of a data message: four, and one for each entry.
const MAX_LINES: usize = 29;

/// The lines of a data message.
pub fn message_lines(fields: &OpticalFields) -> ArrayVec<ArrayString<LINE_ROOM>, MAX_LINES>
    requires { IsLegible (message_view fields.now) }
    ensures lines { AreMessageLines (message_view fields.now) (bytes_of result.items) }
    ensures some { NoneEmpty result.items }
{
    let mut lines = first_lines(fields);
    push_entries(&mut lines, fields.entries.as_slice());
    lines
}

// The lines before those of the entries.
fn first_lines(fields: &OpticalFields) -> ArrayVec<ArrayString<LINE_ROOM>, MAX_LINES>
    requires { IsLegible (message_view fields.now) }
    ensures lines { AreFirstLines (message_view fields.now) (bytes_of result.items) }
    ensures count { array_vec_len result ≡ 4 }
    ensures some { NoneEmpty result.items }
{
    let mut lines = ArrayVec::new();
    lines.push(labelled("serial ", digits_text(fields.serial, 0).as_str(), "\n"));
    lines.push(labelled("energy ", number_text(fields.energy).as_str(), " kWh\n"));
    lines.push(labelled("volume ", number_text(fields.volume).as_str(), " m3\n"));
    lines.push(labelled("day ", fields.day.text().as_str(), "\n"));
    lines
}

// A number with its decimals.
fn number_text(number: Number) -> ArrayString<9>
    requires { IsDisplay (number_view number) }
    ensures { result.bytes ≡ number_text (number_view number) }
{
    digits_text(number.digits, number.decimals)
}

// Adds the lines of the entries.
fn push_entries(lines: &mut ArrayVec<ArrayString<LINE_ROOM>, MAX_LINES>, entries: &[Shown])
    requires room { array_vec_len lines.old + length entries.now ≤ MAX_LINES }
    requires showable { All IsShowable (shown_list entries.now) }
    ensures lines { (shown : List (List ℕ)) × AreShownLines (shown_list entries.now) shown × (bytes_of lines.new.items ≡ bytes_of lines.old.items ++ shown) }
    ensures some { NoneEmpty lines.old.items → NoneEmpty lines.new.items }
{
    for entry in entries {
        lines.push(entry_line(entry));
    }
}

fn entry_line(entry: &Shown) -> ArrayString<LINE_ROOM>
    requires { IsShowable (shown_view entry.now) }
    ensures text { IsShownLine (shown_view entry.now) result.bytes }
    ensures some { 0 < length result.bytes }
{
    let mut line = ArrayString::new();
    push_mark(&mut line, entry.mark);
    line.push_str(" ");
    line.push_str(entry.day.text().as_str());
    line.push_str(" ");
    line.push_str(number_text(entry.energy).as_str());
    line.push_str(" kWh ");
    line.push_str(number_text(entry.volume).as_str());
    line.push_str(" m3\n");
    line
}

// Adds a mark in two digits.
fn push_mark(line: &mut ArrayString<LINE_ROOM>, mark: u8)
    requires room { length line.old.bytes ≤ 60 }
    requires two { mark ≤ 99 }
    ensures { line.new.bytes ≡ line.old.bytes ++ two_digits mark }
{
    line.push(char::from(b'0' + mark / 10));
    line.push(char::from(b'0' + mark % 10));
}
