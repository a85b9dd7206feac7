//! The entries of a data message.

ghost use Rattle.std.specs.Prelude.{◌≡◌, ◌≤◌, ◌+◌, ◌==◌};
ghost use Rattle.reading_model.specs.Messages as model;
ghost use Rattle.reading_model.specs.Rules.{byte};
ghost use Rattle.readout_reader.specs.Views.{shown_view, shown_list};
ghost use Rattle.readout_reader.specs.Reading.{ReadsLeft};

use crate::Shown;
use crate::broken::Broken;
use crate::lines::{day_between, number_between, same_between};
use arrayvec::ArrayVec;

/// The marks are below this.
const MARKS_END: u8 = 26;

/// The entries up to an exclamation mark, and the bytes from that on.
///
/// # Errors
/// [`Broken`] at the first byte that breaks a rule.
pub(crate) fn read_entries(bytes: &[u8]) -> Result<(ArrayVec<Shown, 25>, &[u8]), Broken>
    ensures { ReadsLeft (λ r. (shown_list r.0.items, r.1.now)) result (model.entries_of (model.marks_of bytes.now) bytes.now) }
{
    let mut entries = ArrayVec::new();
    let mut rest = bytes;
    for mark in first_mark(bytes)..MARKS_END {
        if is_end(rest) {
            return Ok((entries, rest));
        }
        let (entry, behind) = read_entry(mark, rest)?;
        entries.push(entry);
        rest = behind;
    }
    Ok((entries, rest))
}

// 1 where the entry of the set day comes first, and else 2.
#[tactic(auto, unfolding(reading_model::specs::Messages::marks_of))]
fn first_mark(bytes: &[u8]) -> u8
    ensures said { result + model.marks_of bytes.now ≡ 26 }
    ensures some { 1 ≤ result }
{
    if bytes.starts_with(b"6.8*01") { 1 } else { 2 }
}

fn is_end(rest: &[u8]) -> bool
    ensures { result ≡ (byte rest.now 0 == 33) }
{
    matches!(rest, [b'!', ..])
}

// The entry with a mark, in two lines.
#[tactic(auto, unfolding(reading_model::specs::Messages::entry_of))]
fn read_entry(mark: u8, bytes: &[u8]) -> Result<(Shown, &[u8]), Broken>
    requires { mark ≤ 25 }
    ensures { ReadsLeft (λ r. (shown_view r.0, r.1.now)) result (model.entry_of mark bytes.now) }
{
    let (tens, ones) = (b'0' + mark / 10, b'0' + mark % 10);
    let (dated, rest) = day_between(&[b'6', b'.', b'8', b'*', tens, ones, b'('], bytes, b")")?;
    let (energy, rest) = number_between(b"(", rest, b"*kWh)\r\n")?;
    let opening = [b'6', b'.', b'2', b'6', b'*', tens, ones, b'('];
    let rest = same_between(&opening, dated.1, rest, b")")?;
    let (volume, rest) = number_between(b"(", rest, b"*m3)\r\n")?;
    let entry = Shown {
        mark,
        day: dated.0,
        energy,
        volume,
    };
    Ok((entry, rest))
}
