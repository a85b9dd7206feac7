//! A data message (IEC 62056-21).

ghost use Rattle.std.specs.Prelude.{◌≡◌, ◌≤◌, ◌+◌, length};
ghost use Rattle.optical_model.specs.Messages.{check_character};
ghost use Rattle.reading_model.specs.Messages as model;
ghost use Rattle.readout_reader.specs.Views.{first_view, message_view};
ghost use Rattle.readout_reader.specs.Reading.{Reads, ReadsLeft};

use crate::broken::Broken;
use crate::entries::read_entries;
use crate::lines::{day_between, number_between, serial_between};
use crate::texts::behind;
use crate::{BadPlace, Number, OpticalFields};
use arrayvec::ArrayVec;
use billing_memory::Day;

// What the lines before the entries say.
#[derive(Clone, Copy)]
struct First {
    serial: u32,
    energy: Number,
    volume: Number,
    day: Day,
}

/// The fields of a data message.
///
/// STX; the lines of the serial number, the energy, the volume and the day; two lines for each entry;
/// `!` CR LF, ETX, and the exclusive or of the bytes behind STX up to and with ETX.
///
/// # Errors
/// [`BadPlace`] exactly where the bytes are no such message, with the place of the first that breaks a
/// rule, or the number of bytes where too few are there.
pub fn read_optical(bytes: &[u8]) -> Result<OpticalFields, BadPlace>
    ensures { Reads message_view result (model.message_in bytes.now) }
{
    match read_lines(bytes) {
        Ok(fields) => Ok(fields),
        Err(e) => Err(BadPlace {
            at: (bytes.len() - e.left) as u32,
        }),
    }
}

#[tactic(auto, unfolding(reading_model::specs::Messages::lines_of))]
fn read_lines(bytes: &[u8]) -> Result<OpticalFields, Broken>
    ensures { ReadsLeft message_view result (model.lines_of bytes.now) }
{
    let (first, rest) = first_lines(bytes)?;
    let (entries, rest) = read_entries(rest)?;
    let rest = behind(b"!\r\n\x03", rest)?;
    check_last(bytes, rest)?;
    Ok(OpticalFields {
        serial: first.serial,
        energy: first.energy,
        volume: first.volume,
        day: first.day,
        entries,
    })
}

#[tactic(auto, unfolding(reading_model::specs::Messages::first_lines))]
fn first_lines(bytes: &[u8]) -> Result<(First, &[u8]), Broken>
    ensures { ReadsLeft (λ r. (first_view r.0, r.1.now)) result (model.first_lines bytes.now) }
{
    let (serial, rest) = serial_between(b"\x029.21(", bytes, b")\r\n")?;
    let (energy, rest) = number_between(b"6.8(", rest, b"*kWh)\r\n")?;
    let (volume, rest) = number_between(b"6.26(", rest, b"*m3)\r\n")?;
    let (dated, rest) = day_between(b"9.36(", rest, b")\r\n")?;
    let first = First {
        serial,
        energy,
        volume,
        day: dated.0,
    };
    Ok((first, rest))
}

// The rest is the check character alone.
#[tactic(auto, unfolding(reading_model::specs::Messages::check_before))]
fn check_last(bytes: &[u8], rest: &[u8]) -> Result<(), Broken>
    requires { length rest.now + 1 ≤ length bytes.now }
    ensures { ReadsLeft (λ u. tt) result (model.ends_with (model.check_before bytes.now (length rest.now)) rest.now) }
{
    let left = rest.len();
    let Some(last) = rest.first() else {
        return Err(Broken { left });
    };
    if *last != check_character(&bytes[1..bytes.len() - left]) {
        return Err(Broken { left });
    }
    if left > 1 {
        return Err(Broken { left: left - 1 });
    }
    Ok(())
}

// The exclusive or of bytes.
fn check_character(bytes: &[u8]) -> u8
    ensures { result ≡ check_character bytes.now }
{
    let mut check = 0;
    for byte in bytes {
        check ^= *byte;
    }
    check
}
