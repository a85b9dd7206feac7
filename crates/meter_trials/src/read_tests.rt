//! The commands that read readouts. The bytes were computed apart from the program.
use crate::trial::{EMPTY, Trial, Trouble, ends, is_done};
use meter_cli::Status;
use std::test::Fail;

/// A telegram of the month that began on 2024-02-01, with 0 kWh and 0.03 m³.
const MONTH: [u8; 40] = [
    0x68, 0x22, 0x22, 0x68, 0x08, 0x01, 0x72, 0x78, 0x56, 0x34, 0x12, 0x43, 0x04, 0x01, 0x04, 0x01,
    0x00, 0x00, 0x00, 0x82, 0x01, 0x6C, 0x01, 0x32, 0x8C, 0x01, 0x06, 0x00, 0x00, 0x00, 0x00, 0x8C,
    0x01, 0x14, 0x03, 0x00, 0x00, 0x00, 0x35, 0x16,
];

/// The data message of a meter on 2024-01-15, after three pulses of ten litres, with 0 kWh.
const MESSAGE: [u8; 79] =
    *b"\x029.21(12345678)\r\n6.8(00000000*kWh)\r\n6.26(000000.03*m3)\r\n9.36(2024-01-15)\r\n!\r\n\x031";

/// One with the entries of a set day and of a month.
const ENTRIES: [u8; 220] =
    *b"\x029.21(12345678)\r\n6.8(0000123.4*kWh)\r\n6.26(000005.67*m3)\r\n9.36(2025-02-10)\r\n6.8*01(2025-01-01)(0000100.5*kWh)\r\n6.26*01(2025-01-01)(000004.02*m3)\r\n6.8*02(2025-02-01)(0000123.3*kWh)\r\n6.26*02(2025-02-01)(000005.66*m3)\r\n!\r\n\x03\x1f";

#[test]
fn readouts_are_read(rt: HostRuntime) -> Result<(), Fail> {
    for (words, bytes, output) in [
        (
            "read mbus",
            MONTH.as_slice(),
            "serial 12345678\nmaker ABC\nversion 1\nmedium return\naddress 1\naccess 1\nstatus 0\n2 date 2024-02-01\n2 energy 0 3\n2 volume 3 -2\n",
        ),
        (
            "read optical",
            MESSAGE.as_slice(),
            "serial 12345678\nenergy 00000000 kWh\nvolume 000000.03 m3\nday 2024-01-15\n",
        ),
        (
            "read optical",
            ENTRIES.as_slice(),
            "serial 12345678\nenergy 0000123.4 kWh\nvolume 000005.67 m3\nday 2025-02-10\n01 2025-01-01 0000100.5 kWh 000004.02 m3\n02 2025-02-01 0000123.3 kWh 000005.66 m3\n",
        ),
    ] {
        is_done(&rt, &Trial::new(words, &EMPTY, bytes).in_pieces(7), output)?;
    }
    Ok(())
}

// A number is wrong at its first byte, the second day of a mark at its first byte; and a byte stands behind a message.
#[test]
fn bytes_that_are_no_readout_are_refused(rt: HostRuntime) -> Result<(), Fail> {
    let mut wrong = MONTH;
    wrong[38] = 0x36;
    let mut number = MESSAGE;
    number[28] = b'x';
    let mut check = MESSAGE;
    check[78] = b'0';
    let mut day = ENTRIES;
    day[127] = b'2';
    let longer =
        b"\x029.21(12345678)\r\n6.8(00000000*kWh)\r\n6.26(000000.03*m3)\r\n9.36(2024-01-15)\r\n!\r\n\x0310";
    for (words, bytes, at) in [
        ("read mbus", wrong.as_slice(), 38),
        ("read mbus", &MONTH[..10], 10),
        ("read mbus", b"".as_slice(), 0),
        ("read optical", number.as_slice(), 21),
        ("read optical", check.as_slice(), 78),
        ("read optical", day.as_slice(), 118),
        ("read optical", &MESSAGE[..40], 40),
        ("read optical", b"".as_slice(), 0),
        ("read optical", longer.as_slice(), 79),
    ] {
        let trial = Trial::new(words, &EMPTY, bytes).in_pieces(7);
        ends(&rt, &trial, Status::BadReadout { at }, b"")?;
    }
    Ok(())
}

// The third read comes after 14 bytes.
#[test]
fn a_read_that_fails_stands_first(rt: HostRuntime) -> Result<(), Fail> {
    let fault = Trouble::Read { number: 3 };
    for (words, bytes) in [
        ("read mbus", MONTH.as_slice()),
        ("read optical", MESSAGE.as_slice()),
    ] {
        let trial = Trial::new(words, &EMPTY, bytes).in_pieces(7);
        ends(&rt, &trial.with(fault), Status::Read, b"")?;
    }
    Ok(())
}
