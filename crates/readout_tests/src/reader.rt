//! Readouts, read.
use billing_memory::Day;
use meter_parts::Place;
use readout_reader::{
    BadPlace, Kind, MbusFields, Number, OpticalFields, Rec, Shown, read_mbus, read_optical,
};

// The second telegram of a reading of a meter on 2024-02-01, after three pulses of ten litres: one month entry.
const MONTHS: [u8; 40] = [
    0x68, 0x22, 0x22, 0x68, 0x08, 0x01, 0x72, 0x78, 0x56, 0x34, 0x12, 0x43, 0x04, 0x01, 0x04, 0x01,
    0x00, 0x00, 0x00, 0x82, 0x01, 0x6C, 0x01, 0x32, 0x8C, 0x01, 0x06, 0x00, 0x00, 0x00, 0x00, 0x8C,
    0x01, 0x14, 0x03, 0x00, 0x00, 0x00, 0x35, 0x16,
];

// The first telegram of that reading: the mark that a further one follows is its last byte.
const FIRST: [u8; 38] = [
    0x68, 0x20, 0x20, 0x68, 0x08, 0x01, 0x72, 0x78, 0x56, 0x34, 0x12, 0x43, 0x04, 0x01, 0x04, 0x00,
    0x00, 0x00, 0x00, 0x0C, 0x06, 0x00, 0x00, 0x00, 0x00, 0x0C, 0x14, 0x03, 0x00, 0x00, 0x00, 0x02,
    0x6C, 0x01, 0x32, 0x1F, 0xD0, 0x16,
];

// The telegram with another byte at a place before its checksum, and the checksum of what it has then.
fn changed(place: usize, byte: u8) -> [u8; 40] {
    let mut bytes = MONTHS;
    if let Some(at) = bytes.get_mut(place) {
        let before = *at;
        *at = byte;
        bytes[38] = bytes[38].wrapping_sub(before).wrapping_add(byte);
    }
    bytes
}

#[test]
fn a_telegram_of_months_is_read(rt: HostRuntime) {
    let Ok(fields) = read_mbus(&MONTHS) else {
        panic!(rt; "no telegram");
    };
    assert_eq!(rt;
        (fields.address, fields.serial, fields.version),
        (1, 12_345_678, 1)
    );
    assert_eq!(rt; fields.maker, *b"ABC");
    assert_eq!(rt; fields.place, Place::Return);
    assert_eq!(rt; (fields.access, fields.status, fields.more), (1, 0, false));
    let date = Rec {
        storage: 2,
        kind: Kind::Date,
        value: 8797,
        exp: 0,
    };
    let energy = Rec {
        storage: 2,
        kind: Kind::Energy,
        value: 0,
        exp: 3,
    };
    let volume = Rec {
        storage: 2,
        kind: Kind::Volume,
        value: 3,
        exp: -2,
    };
    assert_eq!(rt;
        fields.records.as_slice(),
        [date, energy, volume].as_slice()
    );
}

#[test]
fn the_mark_is_read(rt: HostRuntime) {
    let Ok(fields) = read_mbus(&FIRST) else {
        panic!(rt; "no telegram");
    };
    assert!(rt; fields.more);
    assert_eq!(rt; fields.records.len(), 3);
}

#[test]
fn the_first_broken_rule_is_named(rt: HostRuntime) {
    for len in [0, 2, 10] {
        let at = len as u32;
        assert_eq!(rt;
            read_mbus(&MONTHS[..len]),
            Err(BadPlace { at }),
            "{len} bytes"
        );
    }
    let mut bytes = MONTHS;
    bytes[38] = 0x36;
    assert_eq!(rt; read_mbus(&bytes), Err(BadPlace { at: 38 }));
    for (place, byte, at) in [
        (5, 251, 5),
        (8, 0x5A, 8),
        (12, 0x84, 11),
        (14, 0x07, 14),
        (19, 0x92, 19),
        (20, 0x10, 20),
        (21, 0x08, 21),
        // no day 0, and no month 13
        (22, 0x00, 22),
        (23, 0x3D, 22),
        (29, 0xA0, 29),
        // a date of eight digits, and an extension that pushes the volume's last byte out
        (26, 0x6C, 26),
        (24, 0x0C, 30),
    ] {
        assert_eq!(rt;
            read_mbus(&changed(place, byte)),
            Err(BadPlace { at }),
            "{byte} at {place}"
        );
    }
}

// The data message of a meter on 2024-01-15, after three pulses of ten litres.
const MESSAGE: &[u8; 79] =
    b"\x029.21(12345678)\r\n6.8(00000000*kWh)\r\n6.26(000000.03*m3)\r\n9.36(2024-01-15)\r\n!\r\n\x031";

// The same with two entries, and a check character that is reckoned apart.
const ENTRIES: &[u8; 218] =
    b"\x029.21(12345678)\r\n6.8(00000000*kWh)\r\n6.26(000000.03*m3)\r\n9.36(2024-01-15)\r\n6.8*01(2024-01-01)(0000001.5*kWh)\r\n6.26*01(2024-01-01)(00000.002*m3)\r\n6.8*02(2024-02-01)(99999999*kWh)\r\n6.26*02(2024-02-01)(0000007.0*m3)\r\n!\r\n\x03\x1e";

// The bytes with another one at a place.
fn with_byte<const N: usize>(bytes: &[u8; N], place: usize, byte: u8) -> [u8; N] {
    let mut other = *bytes;
    if let Some(at) = other.get_mut(place) {
        *at = byte;
    }
    other
}

#[test]
fn a_data_message_is_read(rt: HostRuntime) {
    let Ok(fields) = read_optical(MESSAGE) else {
        panic!(rt; "no message");
    };
    assert_eq!(rt; fields.serial, 12_345_678);
    assert_eq!(rt;
        fields.energy,
        Number {
            digits: 0,
            decimals: 0
        }
    );
    assert_eq!(rt;
        fields.volume,
        Number {
            digits: 3,
            decimals: 2
        }
    );
    assert_eq!(rt; fields.day.number, 8780);
    assert!(rt; fields.entries.is_empty());
}

#[test]
fn entries_are_read(rt: HostRuntime) {
    let Ok(fields) = read_optical(ENTRIES) else {
        panic!(rt; "no message");
    };
    let set_day = Shown {
        mark: 1,
        day: Day { number: 8766 },
        energy: Number {
            digits: 15,
            decimals: 1,
        },
        volume: Number {
            digits: 2,
            decimals: 3,
        },
    };
    let month = Shown {
        mark: 2,
        day: Day { number: 8797 },
        energy: Number {
            digits: 99_999_999,
            decimals: 0,
        },
        volume: Number {
            digits: 70,
            decimals: 1,
        },
    };
    assert_eq!(rt; fields.entries.as_slice(), [set_day, month].as_slice());
}

// The place at which a text breaks a rule, 9999 where it is a message.
fn place_of(bytes: &[u8]) -> u32 {
    match read_optical(bytes) {
        Ok(_) => 9_999,
        Err(e) => e.at,
    }
}

#[test]
fn the_first_wrong_byte_of_a_message_is_named(rt: HostRuntime) {
    for (place, byte, at) in [
        (0, 0x01, 0),
        (20, b'[', 20),
        (78, 0x30, 78),
        // a letter in a serial number, and a point where a number has none
        (9, b'A', 6),
        (22, b'.', 21),
        // no 45th of January
        (69, b'4', 61),
        // neither an entry nor the end
        (74, b'7', 74),
    ] {
        let message = with_byte(MESSAGE, place, byte);
        assert_eq!(rt; place_of(&message), at, "{byte} at {place}");
    }
}

#[test]
fn texts_that_are_cut_short_are_judged(rt: HostRuntime) {
    for len in [0, 9, 74, 78] {
        assert_eq!(rt; place_of(&MESSAGE[..len]), len as u32, "{len} bytes");
    }
    for (text, at) in [
        (b"\x029.21(12x".as_slice(), 6),
        // a point may stand before the last three digits at most
        (b"\x029.21(12345678)\r\n6.8(12345.".as_slice(), 27),
        (b"\x029.21(12345678)\r\n6.8(1234.".as_slice(), 21),
        (b"\x029.21(12345678)\r\n6.8(12345.6.".as_slice(), 21),
        (b"\x029.21(12345678)\r\n6.8(12345.67".as_slice(), 29),
    ] {
        assert_eq!(rt; place_of(text), at);
    }
}

#[test]
fn the_first_wrong_byte_of_an_entry_is_named(rt: HostRuntime) {
    for (place, byte, len, at) in [
        // the second day of a mark is another, also where the input ends in it
        (126, b'2', 218, 117),
        (118, b'1', 120, 117),
        // marks begin with 01 or 02, and leave none out
        (79, b'3', 218, 79),
        (149, b'3', 218, 149),
        // the 30th of a month that begins so, and of February
        (89, b'3', 90, 90),
        (89, b'4', 90, 81),
    ] {
        let entries = with_byte(ENTRIES, place, byte);
        let front = entries.get(..len).unwrap_or(&entries);
        assert_eq!(rt; place_of(front), at, "{byte} at {place}, {len} bytes");
    }
    for len in [74, 89, 120] {
        assert_eq!(rt; place_of(&ENTRIES[..len]), len as u32, "{len} bytes");
    }
}
