//! Headers and records as bytes.
ghost use Rattle.std.specs.Prelude.{◌≡◌, slice_index};

use billing_memory::{Day, MeterRecord};
use energy_register::Step;
use meter_config::Config;
use meter_parts::Cal;
use state_codec::{Foreign, SLOT_SIZE, decode_header, decode_record, encode_header, encode_record};
use std::test::Fail;

// The fields of the standard configuration, behind the mark.
const FIELDS: [u8; 23] = [
    0x01, 0x4e, 0x61, 0xbc, 0x00, 0x41, 0x42, 0x43, 0x01, 0x01, 0x01, 0x40, 0x06, 0xf4, 0x01, 0x0a,
    0x00, 0x00, 0x02, 0x01, 0x00, 0x4c, 0x22,
];

fn header() -> [u8; 256]
    ensures { slice_index result 0 ≡ 165 }
{
    let mut bytes = [0; 256];
    bytes[1..24].copy_from_slice(&FIELDS);
    bytes[0] = 0xa5;
    bytes
}

#[test]
fn standard_header_is_written(rt: HostRuntime) {
    let bytes = encode_header(&Config::standard());
    assert_eq!(rt; bytes[..23], FIELDS[..]);
    assert!(rt; bytes[23..].iter().all(|byte| *byte == 0));
}

#[test]
fn standard_header_is_read(rt: HostRuntime) {
    assert_eq!(rt; decode_header(&header()), Ok(Config::standard()));
}

#[test]
fn header_with_an_unknown_place(rt: HostRuntime) {
    let mut bytes = header();
    bytes[11] = 2;
    assert_eq!(rt; decode_header(&bytes), Err(Foreign { at: 11 }));
}

#[test]
fn letters_and_reserved_bytes_have_offsets_of_their_own(rt: HostRuntime) {
    let mut bytes = header();
    bytes[255] = 0x01;
    assert_eq!(rt; decode_header(&bytes), Err(Foreign { at: 255 }));
    bytes[100] = 0xff;
    assert_eq!(rt; decode_header(&bytes), Err(Foreign { at: 100 }));
    bytes[28] = 0x01;
    assert_eq!(rt; decode_header(&bytes), Err(Foreign { at: 28 }));
    bytes[24] = 0x02;
    assert_eq!(rt; decode_header(&bytes), Err(Foreign { at: 24 }));
    bytes[8] = 0x61;
    assert_eq!(rt; decode_header(&bytes), Err(Foreign { at: 8 }));
    bytes[7] = 0x5b;
    assert_eq!(rt; decode_header(&bytes), Err(Foreign { at: 7 }));
    bytes[6] = 0x40;
    assert_eq!(rt; decode_header(&bytes), Err(Foreign { at: 6 }));
}

// Bytes 24 to 51 where a Pt500 has 501 ohms at 0 °C in the flow, and the nominal constants in the return.
const CONSTANTS: [u8; 28] = [
    0x01, 0x00, 0x00, 0x00, 0x40, 0xa7, 0xdc, 0x1d, 0xf8, 0x5b, 0x54, 0x02, 0x8f, 0x16, 0x00, 0x00,
    0x00, 0x65, 0xcd, 0x1d, 0xf8, 0x5b, 0x54, 0x02, 0x8f, 0x16, 0x00, 0x00,
];

#[test]
fn calibrated_header_is_read_and_written(rt: HostRuntime) {
    let mut bytes = header();
    bytes[24..52].copy_from_slice(&CONSTANTS);
    let nominal = Cal {
        r0_uohm: 500_000_000,
        a_e10: 39_083_000,
        b_e10: 5_775,
    };
    let mut flow = nominal;
    flow.r0_uohm = 501_000_000;
    let config = decode_header(&bytes);
    if let Ok(c) = config {
        assert_eq!(rt; c.cal, Some((flow, nominal)));
        // The header that is written begins with byte 1.
        let written = encode_header(&c);
        assert!(rt; written[23..51].iter().eq(CONSTANTS.iter()));
    } else {
        assert_eq!(rt; config, Ok(Config::standard()));
    }
}

fn opening() -> MeterRecord {
    MeterRecord::opening(Day { number: 8_780 })
}

#[test]
fn opening_record_is_read_again(rt: HostRuntime) {
    let bytes = encode_record(&opening());
    assert_eq!(rt; bytes[8], 0x4c);
    assert_eq!(rt; bytes[9], 0x22);
    assert!(rt; bytes[..8].iter().all(|byte| *byte == 0));
    assert!(rt; bytes[10..].iter().all(|byte| *byte == 0));
    assert_eq!(rt; decode_record(&bytes), Ok(opening()));
}

#[test]
fn the_first_foreign_field_of_a_record_has_its_offset(rt: HostRuntime) {
    let mut bytes = encode_record(&opening());
    // from the last to the first: reserved bytes, and a day after 2099
    for (place, at) in [(1_279, 1_272), (15, 13), (9, 8)] {
        bytes[place] = 0xff;
        assert_eq!(rt; decode_record(&bytes), Err(Foreign { at }), "byte {place}");
    }
}

// The entry of 2024-02-01 with 3 pulses, -5 mJ and a bound of 7 mJ.
const ENTRY: [u8; 48] = [
    0x5d, 0x22, 0x00, 0x00, 0x00, 0x00, 0x00, 0x00, 0x03, 0x00, 0x00, 0x00, 0x00, 0x00, 0x00, 0x00,
    0xfb, 0xff, 0xff, 0xff, 0xff, 0xff, 0xff, 0xff, 0xff, 0xff, 0xff, 0xff, 0xff, 0xff, 0xff, 0xff,
    0x07, 0x00, 0x00, 0x00, 0x00, 0x00, 0x00, 0x00, 0x00, 0x00, 0x00, 0x00, 0x00, 0x00, 0x00, 0x00,
];

#[test]
fn record_with_entries_is_read_again(rt: HostRuntime) -> Result<(), Fail> {
    let mut record = MeterRecord::opening(Day { number: 8_780 });
    let step = Step {
        e_mj: -5,
        b_mj: 7,
        faulty: 0,
    };
    let register = record.register.after(step, 3)?;
    record.register = register;
    let moved = record.move_to(Day { number: 8_797 }, 2);
    assert!(rt; moved.is_ok());
    let bytes = encode_record(&record);
    assert_eq!(rt; (bytes[11], bytes[12]), (1, 1));
    assert_eq!(rt; bytes[72..120], ENTRY[..]);
    assert_eq!(rt; bytes[120..168], ENTRY[..]);
    assert!(rt; bytes[168..].iter().all(|byte| *byte == 0));
    assert_eq!(rt; decode_record(&bytes), Ok(record));
    Ok(())
}
