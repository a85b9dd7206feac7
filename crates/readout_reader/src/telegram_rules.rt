//! The rules of a telegram's frame and header.

ghost use Rattle.std.specs.Prelude.{◌≡◌, ◌≤◌, ◌+◌, ◌∷◌, [], drop, length, take, IfOk, IsTrue};
ghost use Rattle.std.specs.Int.{w16, from_le_bytes};
ghost use Rattle.std.specs.List.{list_all};
ghost use Rattle.frame_model.specs.Frames.{checksum};
ghost use Rattle.reading_model.specs.Records.{is_decimal};
ghost use Rattle.reading_model.specs.Rules.{byte};
ghost use Rattle.reading_model.specs.Telegrams as model;
ghost use Rattle.readout_reader.specs.Reading.{Passes};

use crate::BadPlace;
use crate::value::is_decimal;
use meter_parts::is_address;

// Hexadecimal, after EN 13757-2 and -3.
const START: u8 = 0x68;

const STOP: u8 = 0x16;

const RESPONSE: u8 = 0x08;

const VARIABLE_DATA: u8 = 0x72;

/// The bytes of the header alone.
const HEADER: u8 = 15;

/// The four bytes before the counted ones.
pub(crate) fn check_start(bytes: &[u8]) -> Result<(), BadPlace>
    ensures rules { Passes (model.start_rules bytes.now) result }
    ensures many { IfOk result (λ u. 15 ≤ model.counted_size bytes.now) }
    ensures there { IfOk result (λ u. 4 ≤ length bytes.now) }
{
    if byte(bytes, 0) != START {
        return Err(BadPlace { at: 0 });
    }
    let size = byte(bytes, 1);
    if size < HEADER {
        return Err(BadPlace { at: 1 });
    }
    if byte(bytes, 2) != size {
        return Err(BadPlace { at: 2 });
    }
    if byte(bytes, 3) != START {
        return Err(BadPlace { at: 3 });
    }
    Ok(())
}

/// The number of bytes, the checksum and the stop byte.
pub(crate) fn check_end(bytes: &[u8]) -> Result<(), BadPlace>
    requires { 4 ≤ length bytes.now }
    ensures rules { Passes (model.end_rules bytes.now) result }
    ensures size { IfOk result (λ u. length bytes.now ≡ model.counted_size bytes.now + 6) }
{
    let end = usize::from(bytes[1]) + 4;
    if bytes.len() != end + 2 {
        let at = bytes.len().min(end + 2) as u32;
        return Err(BadPlace { at });
    }
    if bytes[end] != checksum(&bytes[4..end]) {
        return Err(BadPlace { at: end as u32 });
    }
    if bytes[end + 1] != STOP {
        return Err(BadPlace { at: end as u32 + 1 });
    }
    Ok(())
}

// The sum of bytes, modulo 256.
fn checksum(bytes: &[u8]) -> u8
    ensures { result ≡ checksum bytes.now }
{
    bytes
        .iter()
        .fold(0, |sum: u8, byte| sum.wrapping_add(*byte))
}

/// The control field, the address and the control information.
pub(crate) fn check_link(bytes: &[u8]) -> Result<(), BadPlace>
    requires { 7 ≤ length bytes.now }
    ensures { Passes (model.link_rules bytes.now) result }
{
    if bytes[4] != RESPONSE {
        return Err(BadPlace { at: 4 });
    }
    if !is_address(bytes[5]) {
        return Err(BadPlace { at: 5 });
    }
    if bytes[6] != VARIABLE_DATA {
        return Err(BadPlace { at: 6 });
    }
    Ok(())
}

/// The serial number has decimal digits.
pub(crate) fn check_serial(bytes: &[u8]) -> Result<(), BadPlace>
    requires { 11 ≤ length bytes.now }
    ensures rules { Passes (model.serial_rules bytes.now) result }
    ensures digits { IfOk result (λ u. IsTrue (list_all is_decimal (take 4 (drop 7 bytes.now)))) }
{
    if !is_decimal(bytes[7]) {
        return Err(BadPlace { at: 7 });
    }
    if !is_decimal(bytes[8]) {
        return Err(BadPlace { at: 8 });
    }
    if !is_decimal(bytes[9]) {
        return Err(BadPlace { at: 9 });
    }
    if !is_decimal(bytes[10]) {
        return Err(BadPlace { at: 10 });
    }
    Ok(())
}

/// The maker's letters, the medium and the signature.
pub(crate) fn check_kind(bytes: &[u8]) -> Result<(), BadPlace>
    requires { 19 ≤ length bytes.now }
    ensures { Passes (model.kind_rules bytes.now) result }
{
    let [first, second, third] = maker_of(bytes[11], bytes[12]);
    if !(first.is_ascii_uppercase() && second.is_ascii_uppercase() && third.is_ascii_uppercase()) {
        return Err(BadPlace { at: 11 });
    }
    if !matches!(bytes[14], 0x04 | 0x0C) {
        return Err(BadPlace { at: 14 });
    }
    if bytes[17] != 0 {
        return Err(BadPlace { at: 17 });
    }
    if bytes[18] != 0 {
        return Err(BadPlace { at: 18 });
    }
    Ok(())
}

/// The letters of a code, of five bits each, with A = 1.
pub(crate) fn maker_of(low: u8, high: u8) -> [u8; 3]
    ensures { result ≡ model.letters_of (from_le_bytes w16 (low ∷ high ∷ [])) }
{
    let code = u16::from_le_bytes([low, high]);
    [
        64 + (code / 1024) as u8,
        64 + (code / 32 % 32) as u8,
        64 + (code % 32) as u8,
    ]
}

// The byte at a place, and 0 where there is none.
fn byte(bytes: &[u8], place: usize) -> u8
    ensures { result ≡ byte bytes.now place }
{
    if place < bytes.len() { bytes[place] } else { 0 }
}
