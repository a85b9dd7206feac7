//! What stands between fixed bytes.

ghost use Rattle.reading_model.specs.Messages as model;
ghost use Rattle.std.specs.Prelude.{◌≡◌, length, IfOk};
ghost use Rattle.readout_reader.specs.Views.{number_view};
ghost use Rattle.readout_reader.specs.Reading.{ReadsLeft};

use crate::Number;
use crate::broken::Broken;
use crate::texts::{behind, day_of, number_of, same_of, serial_of};
use billing_memory::Day;

/// A serial number.
pub(crate) fn serial_between<'a>(
    opening: &[u8],
    bytes: &'a [u8],
    closing: &[u8],
) -> Result<(u32, &'a [u8]), Broken>
    ensures { ReadsLeft (λ r. (r.0, r.1.now)) result (model.between opening.now model.serial_of closing.now bytes.now) }
{
    let inner = behind(opening, bytes)?;
    let (serial, rest) = serial_of(inner)?;
    let rest = behind(closing, rest)?;
    Ok((serial, rest))
}

/// A number.
pub(crate) fn number_between<'a>(
    opening: &[u8],
    bytes: &'a [u8],
    closing: &[u8],
) -> Result<(Number, &'a [u8]), Broken>
    ensures { ReadsLeft (λ r. (number_view r.0, r.1.now)) result (model.between opening.now model.number_of closing.now bytes.now) }
{
    let inner = behind(opening, bytes)?;
    let (number, rest) = number_of(inner)?;
    let rest = behind(closing, rest)?;
    Ok((number, rest))
}

/// A day and its text.
pub(crate) fn day_between<'a>(
    opening: &[u8],
    bytes: &'a [u8],
    closing: &[u8],
) -> Result<((Day, &'a [u8]), &'a [u8]), Broken>
    ensures said { ReadsLeft (λ r. ((r.0.0.number, r.0.1.now), r.1.now)) result (model.between opening.now model.day_of closing.now bytes.now) }
    ensures text { IfOk result (λ r. length r.0.1.now ≡ 10) }
{
    let inner = behind(opening, bytes)?;
    let (day, rest) = day_of(inner)?;
    let rest = behind(closing, rest)?;
    Ok((day, rest))
}

/// A text that was there before; the bytes behind it.
pub(crate) fn same_between<'a>(
    opening: &[u8],
    before: &[u8],
    bytes: &'a [u8],
    closing: &[u8],
) -> Result<&'a [u8], Broken>
    requires { length before.now ≡ 10 }
    ensures { ReadsLeft (λ r. (before.now, r.now)) result (model.between opening.now (model.same_of before.now) closing.now bytes.now) }
{
    let inner = behind(opening, bytes)?;
    let rest = same_of(before, inner)?;
    behind(closing, rest)
}
