//! A telegram (EN 13757-2 and -3).

ghost use Rattle.std.specs.Prelude.{◌≡◌, ◌≤◌, ◌+◌, length};
ghost use Rattle.meter_parts.specs.Views.{place_view};
ghost use Rattle.reading_model.specs.Records as records;
ghost use Rattle.reading_model.specs.Telegrams as model;
ghost use Rattle.readout_reader.specs.Views.{recs_view, telegram_view};
ghost use Rattle.readout_reader.specs.Reading.{Reads, ReadsAt};

use crate::records::read_records;
use crate::telegram_rules::{
    check_end, check_kind, check_link, check_serial, check_start, maker_of,
};
use crate::value::decimal_number;
use crate::{BadPlace, MbusFields, Rec};
use arrayvec::ArrayVec;
use meter_parts::Place;

/// The fields of a telegram.
///
/// In hexadecimal, `68 L L 68 08 A 72`, the serial number in four bytes of decimal digits, the code of
/// the maker in two, the version, the medium 04 or 0C, the access number, the status, `00 00`, the data
/// records, perhaps 1F, the checksum, 16.
///
/// # Errors
/// [`BadPlace`] exactly where the bytes are no such telegram, with the place of the first that breaks
/// a rule, or the number of bytes where too few are there.
pub fn read_mbus(bytes: &[u8]) -> Result<MbusFields, BadPlace>
    ensures { Reads telegram_view result (model.telegram_in bytes.now) }
{
    check_start(bytes)?;
    check_end(bytes)?;
    check_link(bytes)?;
    check_serial(bytes)?;
    check_kind(bytes)?;
    let (records, more) = counted_records(bytes)?;
    Ok(MbusFields {
        address: bytes[5],
        serial: decimal_number(bytes[7], bytes[8], bytes[9], bytes[10]),
        maker: maker_of(bytes[11], bytes[12]),
        version: bytes[13],
        place: place_of(bytes[14]),
        access: bytes[15],
        status: bytes[16],
        records,
        more,
    })
}

// The records behind the header.
fn counted_records(bytes: &[u8]) -> Result<(ArrayVec<Rec, 64>, bool), BadPlace>
    requires many { 15 ≤ model.counted_size bytes.now }
    requires size { length bytes.now ≡ model.counted_size bytes.now + 6 }
    ensures { ReadsAt (λ r. (recs_view r.0.items, r.1)) result (model.counted_size bytes.now + 4) (records.records_in 0 (model.record_bytes bytes.now)) }
{
    let end = bytes.len() - 2;
    match read_records(&bytes[19..end]) {
        Ok(records) => Ok(records),
        Err(e) => Err(BadPlace {
            at: (end - e.left) as u32,
        }),
    }
}

fn place_of(medium: u8) -> Place
    ensures { place_view result ≡ model.place_of medium }
{
    if medium == 0x04 {
        Place::Return
    } else {
        Place::Flow
    }
}
