//! How the data of a record are written.

ghost use Rattle.std.specs.Prelude.{◌≡◌, ◌≤◌, ◌+◌, length, IfOk};
ghost use Rattle.std.specs.Option.{option_map};
ghost use Rattle.reading_model.specs.Rules.{byte};
ghost use Rattle.reading_model.specs.Records as records;
ghost use Rattle.readout_reader.specs.Views.{coding_view, data_size};
ghost use Rattle.readout_reader.specs.Reading.{ReadsLeft};

use crate::broken::Broken;

/// The coding of data (EN 13757-3).
#[derive(Clone, Copy, Debug, PartialEq, Eq)]
pub(crate) enum Coding {
    /// A whole number of 16 bits.
    Integer16,
    /// A whole number of 32 bits.
    Integer32,
    /// Eight decimal digits.
    Decimal8,
}

// The coding that a data information field says, where it says one.
fn information_coding(dif: u8) -> Option<Coding>
    ensures { option_map coding_view result ≡ records.information_coding dif }
{
    if dif / 16 % 4 != 0 {
        return None;
    }
    match dif % 16 {
        0x2 => Some(Coding::Integer16),
        0x4 => Some(Coding::Integer32),
        0xC => Some(Coding::Decimal8),
        _ => None,
    }
}

/// How many bytes stand before the value information field.
pub(crate) fn information_size(dif: u8) -> usize
    ensures { result ≡ records.information_size dif }
{
    if dif >= 0x80 { 2 } else { 1 }
}

/// How many bytes a record has, by its first.
pub(crate) fn record_size(dif: u8) -> usize
    ensures { result ≡ records.record_size dif }
{
    let data = if dif % 16 == 2 { 2 } else { 4 };
    information_size(dif) + 1 + data
}

/// The coding of the record that these bytes begin with.
///
/// # Errors
/// [`Broken`] at the first byte, where that says none or the record ends behind the last byte.
pub(crate) fn fitting_coding(bytes: &[u8]) -> Result<Coding, Broken>
    requires { 1 ≤ length bytes.now }
    ensures said { ReadsLeft coding_view result (records.said_at (records.fitting_coding bytes.now) bytes.now) }
    ensures fits { IfOk result (λ coding. records.record_size (byte bytes.now 0) ≤ length bytes.now) }
    ensures data { IfOk result (λ coding. records.record_size (byte bytes.now 0)
        ≡ records.information_size (byte bytes.now 0) + 1 + data_size coding) }
{
    let left = bytes.len();
    if record_size(bytes[0]) > left {
        return Err(Broken { left });
    }
    match information_coding(bytes[0]) {
        Some(coding) => Ok(coding),
        None => Err(Broken { left }),
    }
}
