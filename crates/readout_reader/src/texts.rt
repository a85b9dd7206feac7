//! Fixed bytes, serial numbers, numbers and days of a data message.

ghost use Rattle.std.specs.Prelude.{◌≡◌, ◌≤◌, ◌<◌, ◌+◌, ◌-◌, ◌++◌, length, take, drop, cond, None, Some, IfOk};
ghost use Rattle.std.specs.Option.{option_map};
ghost use Rattle.reading_model.specs.Messages as model;
ghost use Rattle.readout_reader.specs.Views.{number_view};
ghost use Rattle.readout_reader.specs.Reading.{ReadsLeft};

use crate::Number;
use crate::broken::Broken;
use billing_memory::{Day, date_word, digits_word};

/// The bytes behind fixed ones.
///
/// # Errors
/// [`Broken`] at the first byte that differs, or at the end of the bytes.
pub(crate) fn behind<'a>(fixed: &[u8], bytes: &'a [u8]) -> Result<&'a [u8], Broken>
    ensures { ReadsLeft (λ r. r.now) result (model.behind fixed.now bytes.now) }
{
    for (k, byte) in fixed.iter().enumerate() {
        if k == bytes.len() {
            return Err(Broken { left: 0 });
        }
        if bytes[k] != *byte {
            return Err(Broken {
                left: bytes.len() - k,
            });
        }
    }
    Ok(&bytes[fixed.len()..])
}

/// The serial number of eight digits that these bytes begin with, and the bytes behind it.
///
/// # Errors
/// [`Broken`] at the first byte, or at the end where that comes too early.
pub(crate) fn serial_of(bytes: &[u8]) -> Result<(u32, &[u8]), Broken>
    ensures { ReadsLeft (λ r. (r.0, r.1.now)) result (model.serial_of bytes.now) }
{
    if bytes.len() < 8 {
        return Err(cut_short(bytes, is_serial_mended(bytes)));
    }
    match serial_said(&bytes[..8]) {
        Some(serial) => Ok((serial, &bytes[8..])),
        None => Err(Broken { left: bytes.len() }),
    }
}

/// The number that these bytes begin with, and the bytes behind it.
///
/// # Errors
/// [`Broken`] at the first byte, or at the end where that comes too early.
pub(crate) fn number_of(bytes: &[u8]) -> Result<(Number, &[u8]), Broken>
    ensures { ReadsLeft (λ r. (number_view r.0, r.1.now)) result (model.number_of bytes.now) }
{
    let size = number_size(bytes);
    if bytes.len() < size {
        return Err(cut_short(bytes, is_number_mended(bytes)));
    }
    match number_said(&bytes[..size]) {
        Some(number) => Ok((number, &bytes[size..])),
        None => Err(Broken { left: bytes.len() }),
    }
}

/// The day that these bytes begin with, its text, and the bytes behind it.
///
/// # Errors
/// [`Broken`] at the first byte, or at the end where that comes too early.
pub(crate) fn day_of(bytes: &[u8]) -> Result<((Day, &[u8]), &[u8]), Broken>
    ensures said { ReadsLeft (λ r. ((r.0.0.number, r.0.1.now), r.1.now)) result (model.day_of bytes.now) }
    ensures text { IfOk result (λ r. length r.0.1.now ≡ 10) }
{
    if bytes.len() < 10 {
        return Err(cut_short(bytes, is_day_mended(bytes)));
    }
    let text = &bytes[..10];
    match date_word(text) {
        Some(day) => Ok(((day, text), &bytes[10..])),
        None => Err(Broken { left: bytes.len() }),
    }
}

/// The bytes behind a text of ten bytes that was there before.
///
/// # Errors
/// [`Broken`] at the first byte, or at the end where that comes too early.
pub(crate) fn same_of<'a>(before: &[u8], bytes: &'a [u8]) -> Result<&'a [u8], Broken>
    requires { length before.now ≡ 10 }
    ensures { ReadsLeft (λ r. (before.now, r.now)) result (model.same_of before.now bytes.now) }
{
    if bytes.len() < 10 {
        return Err(cut_short(bytes, is_same_mended(before, bytes)));
    }
    if &bytes[..10] != before {
        return Err(Broken { left: bytes.len() });
    }
    Ok(&bytes[10..])
}

// A text is broken at its end where further bytes mend it, and else at its first byte.
fn cut_short(bytes: &[u8], mended: bool) -> Broken
    ensures { result.left ≡ cond mended 0 (length bytes.now) }
{
    if mended {
        Broken { left: 0 }
    } else {
        Broken { left: bytes.len() }
    }
}

// Whether further bytes make a serial number of a text.
#[tactic(auto, unfolding(reading_model::specs::Messages::is_mended))]
fn is_serial_mended(text: &[u8]) -> bool
    requires { length text.now ≤ 8 }
    ensures { result ≡ model.is_mended model.serial_form text.now }
{
    serial_said(&ended(text, b"00000000")).is_some()
}

// Whether further bytes make a number of a text.
#[tactic(auto, unfolding(reading_model::specs::Messages::is_mended))]
fn is_number_mended(text: &[u8]) -> bool
    requires { length text.now ≤ 8 }
    ensures { result ≡ model.is_mended model.number_form text.now }
{
    number_said(&ended(text, b"00000000")).is_some()
        || number_said(&ended(text, b"00000.000")).is_some()
}

// Whether further bytes make a day of a text.
#[tactic(auto, unfolding(reading_model::specs::Messages::is_mended))]
fn is_day_mended(text: &[u8]) -> bool
    requires { length text.now ≤ 10 }
    ensures { result ≡ model.is_mended model.day_form text.now }
{
    date_word(&ended(text, b"2000-01-01")).is_some()
        || date_word(&ended(text, b"2000-01-30")).is_some()
}

// Whether further bytes make a text what was there before.
fn is_same_mended(before: &[u8], text: &[u8]) -> bool
    requires { length text.now ≤ length before.now }
    ensures { result ≡ model.is_mended (model.same_form before.now) text.now }
{
    text == &before[..text.len()]
}

// A text with the end of another.
fn ended<const N: usize>(text: &[u8], ending: &[u8; N]) -> [u8; N]
    requires { length text.now ≤ N }
    ensures { result ≡ text.now ++ drop (length text.now) ending.now }
{
    let mut whole = *ending;
    whole[..text.len()].copy_from_slice(text);
    whole
}

// The serial number that a text of eight digits says.
#[tactic(auto, unfolding(reading_model::specs::Messages::serial_said))]
fn serial_said(text: &[u8]) -> Option<u32>
    requires { length text.now ≡ 8 }
    ensures { result ≡ model.serial_said text.now }
{
    digits_word(text)
}

// How many decimals a text says by the place of its point.
#[tactic(auto, unfolding(reading_model::specs::Messages::decimals_of))]
fn decimals_of(text: &[u8]) -> u8
    ensures said { result ≡ model.decimals_of text.now }
    ensures few { result ≤ 3 }
    ensures there { 0 < result → 8 < length text.now + result }
{
    if text.get(5) == Some(&b'.') {
        3
    } else if text.get(6) == Some(&b'.') {
        2
    } else if text.get(7) == Some(&b'.') {
        1
    } else {
        0
    }
}

// How many bytes a number has.
#[tactic(auto, unfolding(reading_model::specs::Messages::number_size))]
fn number_size(text: &[u8]) -> usize
    ensures { result ≡ model.number_size text.now }
{
    if decimals_of(text) == 0 { 8 } else { 9 }
}

// The number that a text says.
#[tactic(auto, unfolding(reading_model::specs::Messages::number_said, reading_model::specs::Messages::digits_of, reading_model::specs::Messages::number_size))]
fn number_said(text: &[u8]) -> Option<Number>
    ensures { option_map number_view result ≡ model.number_said text.now }
{
    let decimals = decimals_of(text);
    if decimals == 0 {
        return if text.len() == 8 {
            numbered(digits_word(text), 0)
        } else {
            None
        };
    }
    if text.len() != 9 {
        return None;
    }
    numbered(
        digits_word(&without(text, 8 - usize::from(decimals))),
        decimals,
    )
}

fn numbered(digits: Option<u32>, decimals: u8) -> Option<Number>
    ensures { option_map number_view result ≡ option_map (λ n. number_view (record { digits = n; decimals = decimals })) digits }
{
    match digits {
        Some(digits) => Some(Number { digits, decimals }),
        None => None,
    }
}

// Nine bytes without one of them.
fn without(text: &[u8], at: usize) -> [u8; 8]
    requires size { length text.now ≡ 9 }
    requires place { at ≤ 8 }
    ensures { result ≡ take at text.now ++ drop (at + 1) text.now }
{
    let mut rest = [0; 8];
    rest[..at].copy_from_slice(&text[..at]);
    rest[at..].copy_from_slice(&text[at + 1..]);
    rest
}
