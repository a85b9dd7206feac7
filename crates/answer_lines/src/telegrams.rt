//! The lines that show what readouts say.
ghost use Rattle.std.specs.Prelude.{◌≡◌, ◌<◌, ◌≤◌, ◌+◌, ◌++◌, List, ℕ, codes, length};
ghost use Rattle.std.specs.List.{All};
ghost use Rattle.arrayvec.specs.ArrayVec.{array_vec_len};
ghost use Rattle.readout_reader.specs.Views.{rec_view, recs_view, telegram_view};
ghost use Rattle.meter_parts.specs.Views.{place_view};
ghost use Rattle.answer_lines.specs.Texts.{NoneEmpty, bytes_of};
ghost use Rattle.answer_lines.specs.ReadLines.{AreRecordLines, AreTelegramLines, IsDateLine, IsDated, IsDayNumber, IsLineOf, IsReadable, header_lines, place_word, value_line};

use crate::line::{LINE_ROOM, labelled};
use arrayvec::{ArrayString, ArrayVec};
use billing_memory::Day;
use energy_register::digits_text;
use itoa::Buffer;
use meter_parts::Place;
use readout_reader::{Kind, MbusFields, Rec};

/// The most lines of a telegram: seven, one for each record, and one where a further telegram follows.
const MAX_LINES: usize = 72;

/// The lines of a telegram.
pub fn telegram_lines(fields: &MbusFields) -> ArrayVec<ArrayString<LINE_ROOM>, MAX_LINES>
    requires { IsReadable (telegram_view fields.now) }
    ensures lines { AreTelegramLines (telegram_view fields.now) (bytes_of result.items) }
    ensures some { NoneEmpty result.items }
{
    let mut lines = header_lines(fields);
    push_records(&mut lines, fields.records.as_slice());
    if fields.more {
        lines.push(labelled("more", "", "\n"));
    }
    lines
}

// The lines before those of the records.
fn header_lines(fields: &MbusFields) -> ArrayVec<ArrayString<LINE_ROOM>, MAX_LINES>
    requires { IsReadable (telegram_view fields.now) }
    ensures lines { bytes_of result.items ≡ header_lines (telegram_view fields.now) }
    ensures count { array_vec_len result ≡ 7 }
    ensures some { NoneEmpty result.items }
{
    let mut digits = Buffer::new();
    let mut lines = ArrayVec::new();
    lines.push(labelled("serial ", digits_text(fields.serial, 0).as_str(), "\n"));
    lines.push(maker_line(fields.maker));
    lines.push(labelled("version ", digits.format(fields.version), "\n"));
    lines.push(labelled("medium ", place_name(fields.place), "\n"));
    lines.push(labelled("address ", digits.format(fields.address), "\n"));
    lines.push(labelled("access ", digits.format(fields.access), "\n"));
    lines.push(labelled("status ", digits.format(fields.status), "\n"));
    lines
}

// The line of the maker's letters.
fn maker_line(maker: [u8; 3]) -> ArrayString<LINE_ROOM>
    requires { All (λ letter. letter < 128) maker }
    ensures text { result.bytes ≡ codes "maker " ++ maker ++ codes "\n" }
    ensures some { 0 < length result.bytes }
{
    let mut line = ArrayString::new();
    line.push_str("maker ");
    line.push(char::from(maker[0]));
    line.push(char::from(maker[1]));
    line.push(char::from(maker[2]));
    line.push_str("\n");
    line
}

fn place_name(place: Place) -> &'static str
    ensures text { result.now ≡ place_word (place_view place) }
    ensures short { length result.now ≤ 10 }
{
    match place {
        Place::Flow => "flow",
        Place::Return => "return",
    }
}

// Adds the lines of the records.
fn push_records(lines: &mut ArrayVec<ArrayString<LINE_ROOM>, MAX_LINES>, records: &[Rec])
    requires room { array_vec_len lines.old + length records.now ≤ MAX_LINES }
    requires dated { All IsDated (recs_view records.now) }
    ensures lines { (shown : List (List ℕ)) × AreRecordLines (recs_view records.now) shown × (bytes_of lines.new.items ≡ bytes_of lines.old.items ++ shown) }
    ensures count { array_vec_len lines.new ≡ array_vec_len lines.old + length records.now }
    ensures some { NoneEmpty lines.old.items → NoneEmpty lines.new.items }
{
    for reading in records {
        lines.push(record_line(reading));
    }
}

fn record_line(rec: &Rec) -> ArrayString<LINE_ROOM>
    requires { IsDated (rec_view rec.now) }
    ensures text { IsLineOf (rec_view rec.now).kind (rec_view rec.now) result.bytes }
    ensures some { 0 < length result.bytes }
{
    match rec.kind {
        Kind::Energy => value_line("energy", rec),
        Kind::Volume => value_line("volume", rec),
        Kind::FlowTemp => value_line("flow", rec),
        Kind::ReturnTemp => value_line("return", rec),
        Kind::Difference => value_line("difference", rec),
        Kind::Date => date_line(rec),
    }
}

fn value_line(name: &str, rec: &Rec) -> ArrayString<LINE_ROOM>
    requires { length name.now ≤ 10 }
    ensures text { result.bytes ≡ value_line name.now (rec_view rec.now) }
    ensures some { 0 < length result.bytes }
{
    let mut digits = Buffer::new();
    let mut line = ArrayString::new();
    line.push_str(digits.format(rec.storage));
    line.push_str(" ");
    line.push_str(name);
    line.push_str(" ");
    line.push_str(digits.format(rec.value));
    line.push_str(" ");
    line.push_str(digits.format(rec.exp));
    line.push_str("\n");
    line
}

fn date_line(rec: &Rec) -> ArrayString<LINE_ROOM>
    requires { IsDayNumber rec.now.value }
    ensures text { IsDateLine (rec_view rec.now) result.bytes }
    ensures some { 0 < length result.bytes }
{
    let day = Day {
        number: rec.value as u16,
    };
    let mut digits = Buffer::new();
    let mut line = ArrayString::new();
    line.push_str(digits.format(rec.storage));
    line.push_str(" date ");
    line.push_str(day.text().as_str());
    line.push_str("\n");
    line
}
