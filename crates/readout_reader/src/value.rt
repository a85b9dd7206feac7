//! The value of a record, by its kind and coding.

ghost use Rattle.std.specs.Prelude.{◌≡◌, ◌≤◌, ◌+◌, ◌*◌, ◌/◌, ◌%◌, [], ◌∷◌, length, FitsSigned, IfOk, IsTrue};
ghost use Rattle.std.specs.Int.{w64};
ghost use Rattle.std.specs.Option.{option_map};
ghost use Rattle.reading_model.specs.Telegrams.{decimal_number};
ghost use Rattle.reading_model.specs.Records as records;
ghost use Rattle.readout_reader.specs.Views.{coding_view, data_size, kind_view};
ghost use Rattle.readout_reader.specs.Reading.{ReadsLeft};

use crate::Kind;
use crate::broken::Broken;
use crate::coding::Coding;
use billing_memory::{Day, day_of};

/// The value that the data say, which these bytes begin with: at least as many as the data have.
///
/// # Errors
/// [`Broken`] at the first byte that has no two decimal digits, or at the first of a date that the
/// calendar doesn't have in 2000 to 2099.
pub(crate) fn value_in(kind: Kind, coding: Coding, bytes: &[u8]) -> Result<i64, Broken>
    requires { data_size coding ≤ length bytes.now }
    ensures said { ReadsLeft (λ z. z) result (records.value_in (kind_view kind) (coding_view coding) bytes.now) }
    ensures range { IfOk result (FitsSigned w64) }
{
    match coding {
        Coding::Integer16 => value_of_16_bits(kind, bytes),
        Coding::Integer32 => Ok(i64::from(i32::from_le_bytes([
            bytes[0], bytes[1], bytes[2], bytes[3],
        ]))),
        Coding::Decimal8 => Ok(i64::from(decimal_in(bytes)?)),
    }
}

// A date where the value is one, and else a whole number.
fn value_of_16_bits(kind: Kind, bytes: &[u8]) -> Result<i64, Broken>
    requires { 2 ≤ length bytes.now }
    ensures said { ReadsLeft (λ z. z) result (records.value_in (kind_view kind) records.Integer16 bytes.now) }
    ensures range { IfOk result (FitsSigned w64) }
{
    if kind != Kind::Date {
        return Ok(i64::from(i16::from_le_bytes([bytes[0], bytes[1]])));
    }
    match date_of(bytes[0], bytes[1]) {
        Some(day) => Ok(i64::from(day.number)),
        None => Err(Broken { left: bytes.len() }),
    }
}

// The day of a date of type G: five bits of day and three of year, then four of month and four of year.
fn date_of(low: u8, high: u8) -> Option<Day>
    ensures { option_map (λ day. day.number) result ≡ records.date_of low high }
{
    let year = 2000 + u16::from(low / 32) + 8 * u16::from(high / 16);
    day_of(year, high % 16, low % 32)
}

// The number of eight decimal digits, two in a byte, the lowest first.
fn decimal_in(bytes: &[u8]) -> Result<u32, Broken>
    requires { 4 ≤ length bytes.now }
    ensures said { ReadsLeft (λ n. n) result (records.decimal_in 4 bytes.now) }
    ensures small { IfOk result (λ n. n ≤ 99999999) }
{
    let left = bytes.len();
    if !is_decimal(bytes[0]) {
        return Err(Broken { left });
    }
    if !is_decimal(bytes[1]) {
        return Err(Broken { left: left - 1 });
    }
    if !is_decimal(bytes[2]) {
        return Err(Broken { left: left - 2 });
    }
    if !is_decimal(bytes[3]) {
        return Err(Broken { left: left - 3 });
    }
    Ok(decimal_number(bytes[0], bytes[1], bytes[2], bytes[3]))
}

/// The number of two decimal digits a byte, the lowest byte first.
pub(crate) fn decimal_number(a: u8, b: u8, c: u8, d: u8) -> u32
    requires a { IsTrue (records.is_decimal a) }
    requires b { IsTrue (records.is_decimal b) }
    requires c { IsTrue (records.is_decimal c) }
    requires d { IsTrue (records.is_decimal d) }
    ensures said { result ≡ decimal_number (a ∷ b ∷ c ∷ d ∷ []) }
    ensures small { result ≤ 99999999 }
{
    two_digits(a) + 100 * two_digits(b) + 10_000 * two_digits(c) + 1_000_000 * two_digits(d)
}

fn two_digits(b: u8) -> u32
    requires { IsTrue (records.is_decimal b) }
    ensures said { result ≡ b % 16 + 10 * (b / 16) }
    ensures small { result ≤ 99 }
{
    u32::from(b % 16 + 10 * (b / 16))
}

/// Whether a byte has two decimal digits.
pub(crate) fn is_decimal(b: u8) -> bool
    ensures { result ≡ records.is_decimal b }
{
    b % 16 <= 9 && b / 16 <= 9
}
