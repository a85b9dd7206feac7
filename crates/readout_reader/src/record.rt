//! A data record (EN 13757-3).

ghost use Rattle.std.specs.Prelude.{◌≡◌, ◌≤◌, ◌<◌, ◌+◌, ◌*◌, drop, length, FitsSigned, IfOk, IfSome};
ghost use Rattle.std.specs.Int.{w8};
ghost use Rattle.std.specs.Option.{option_map};
ghost use Rattle.reading_model.specs.Rules.{byte};
ghost use Rattle.reading_model.specs.Records as records;
ghost use Rattle.readout_reader.specs.Views.{coding_view, kind_view, quantity_view, rec_view};
ghost use Rattle.readout_reader.specs.Reading.{ReadsLeft};

use crate::broken::Broken;
use crate::coding::{Coding, fitting_coding, information_size, record_size};
use crate::value::value_in;
use crate::{Kind, Rec};

/// The record that these bytes begin with, and those behind it.
///
/// # Errors
/// [`Broken`] at the first field of the record that breaks its rule.
#[tactic(auto, unfolding(reading_model::specs::Records::record_in))]
pub(crate) fn read_record(bytes: &[u8]) -> Result<(Rec, &[u8]), Broken>
    requires { 1 ≤ length bytes.now }
    ensures said { ReadsLeft (λ r. rec_view r.0) result (records.record_in bytes.now) }
    ensures fits { IfOk result (λ r. records.record_size (byte bytes.now 0) ≤ length bytes.now) }
    ensures behind { IfOk result (λ r. r.1.now ≡ drop (records.record_size (byte bytes.now 0)) bytes.now) }
{
    let dif = bytes[0];
    let coding = fitting_coding(bytes)?;
    let dife = extension(bytes)?;
    let unit = information_size(dif);
    let (kind, exp) = quantity(coding, &bytes[unit..])?;
    let value = value_in(kind, coding, &bytes[unit + 1..])?;
    let rec = Rec {
        storage: storage_of(dif, dife),
        kind,
        value,
        exp,
    };
    Ok((rec, &bytes[record_size(dif)..]))
}

// The second field of the record, or 0 where there is none.
fn extension(bytes: &[u8]) -> Result<u8, Broken>
    requires { 2 ≤ length bytes.now }
    ensures said { ReadsLeft (λ n. n) result (records.said_at (records.extension bytes.now) (drop 1 bytes.now)) }
    ensures small { IfOk result (λ n. n < 16) }
{
    if bytes[0] < 0x80 {
        return Ok(0);
    }
    if bytes[1] < 0x10 {
        Ok(bytes[1])
    } else {
        Err(Broken {
            left: bytes.len() - 1,
        })
    }
}

fn storage_of(dif: u8, dife: u8) -> u8
    requires { dife < 16 }
    ensures { result ≡ records.storage_of dif dife }
{
    dif / 64 % 2 + 2 * dife
}

// What the value information field before the data says of them.
fn quantity(coding: Coding, bytes: &[u8]) -> Result<(Kind, i8), Broken>
    requires { 1 ≤ length bytes.now }
    ensures range { IfOk result (λ q. FitsSigned w8 q.1) }
    ensures said { ReadsLeft quantity_view result (records.said_at (records.quantity (coding_view coding) (byte bytes.now 0)) bytes.now) }
{
    match unit_of(coding, bytes[0]) {
        Some(quantity) => Ok(quantity),
        None => Err(Broken { left: bytes.len() }),
    }
}

// A kind of value, and the power of ten of its unit.
fn unit_of(coding: Coding, vif: u8) -> Option<(Kind, i8)>
    ensures range { IfSome result (λ q. FitsSigned w8 q.1) }
    ensures said { option_map quantity_view result ≡ records.quantity (coding_view coding) vif }
{
    match vif {
        0x00..=0x07 => Some((Kind::Energy, vif as i8 - 3)),
        0x10..=0x17 => Some((Kind::Volume, (vif - 0x10) as i8 - 6)),
        0x58..=0x5B => Some((Kind::FlowTemp, (vif - 0x58) as i8 - 3)),
        0x5C..=0x5F => Some((Kind::ReturnTemp, (vif - 0x5C) as i8 - 3)),
        0x60..=0x63 => Some((Kind::Difference, (vif - 0x60) as i8 - 3)),
        0x6C if coding == Coding::Integer16 => Some((Kind::Date, 0)),
        _ => None,
    }
}
