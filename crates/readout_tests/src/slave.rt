//! The slave on the bus.
use arrayvec::ArrayVec;
use billing_memory::{MeterRecord, day_of};
use energy_register::{PulsesFull, Register, Step};
use mbus_link::{Frame, parse, write};
use mbus_records::{Slave, telegram};
use meter_config::Config;
use meter_parts::Place;
use std::test::Fail;

// A reset and requests to address 1, as bytes on the bus, and an acknowledgement.
const RESET: &[u8] = &[0x10, 0x40, 0x01, 0x41, 0x16];

const RESET_OF_ANOTHER: &[u8] = &[0x10, 0x40, 0x02, 0x42, 0x16];

const RESET_OF_ALL: &[u8] = &[0x10, 0x40, 0xFF, 0x3F, 0x16];

const REQUEST_5B: &[u8] = &[0x10, 0x5B, 0x01, 0x5C, 0x16];

const REQUEST_7B: &[u8] = &[0x10, 0x7B, 0x01, 0x7C, 0x16];

const ACK: &[u8] = &[0xE5];

// After three pulses: the first telegram without and with a month entry, and the second.
const WITHOUT_MONTHS: &[u8] = &[
    0x68, 0x1F, 0x1F, 0x68, 0x08, 0x01, 0x72, 0x78, 0x56, 0x34, 0x12, 0x43, 0x04, 0x01, 0x04, 0x00,
    0x00, 0x00, 0x00, 0x0C, 0x06, 0x00, 0x00, 0x00, 0x00, 0x0C, 0x14, 0x03, 0x00, 0x00, 0x00, 0x02,
    0x6C, 0x0F, 0x31, 0xBE, 0x16,
];

const FIRST: &[u8] = &[
    0x68, 0x20, 0x20, 0x68, 0x08, 0x01, 0x72, 0x78, 0x56, 0x34, 0x12, 0x43, 0x04, 0x01, 0x04, 0x00,
    0x00, 0x00, 0x00, 0x0C, 0x06, 0x00, 0x00, 0x00, 0x00, 0x0C, 0x14, 0x03, 0x00, 0x00, 0x00, 0x02,
    0x6C, 0x01, 0x32, 0x1F, 0xD0, 0x16,
];

const SECOND: &[u8] = &[
    0x68, 0x22, 0x22, 0x68, 0x08, 0x01, 0x72, 0x78, 0x56, 0x34, 0x12, 0x43, 0x04, 0x01, 0x04, 0x01,
    0x00, 0x00, 0x00, 0x82, 0x01, 0x6C, 0x01, 0x32, 0x8C, 0x01, 0x06, 0x00, 0x00, 0x00, 0x00, 0x8C,
    0x01, 0x14, 0x03, 0x00, 0x00, 0x00, 0x35, 0x16,
];

// The standard configuration, and the record of a new meter of it after three pulses.
fn three_pulses() -> Result<(Config, MeterRecord), PulsesFull> {
    let c = Config::standard();
    let mut m = MeterRecord::opening(c.opening_day);
    let step = Step {
        e_mj: 0,
        b_mj: 0,
        faulty: 0,
    };
    let register = m.register.after(step, 3)?;
    m.register = register;
    Ok((c, m))
}

// What a slave replies to bytes, as bytes.
fn reply(slave: &mut Slave, bytes: &[u8], c: &Config, m: &MeterRecord) -> ArrayVec<u8, 261> {
    let Some(frame) = parse(bytes) else {
        return ArrayVec::new();
    };
    match slave.hear(&frame, c, m) {
        Some(answer) => write(&answer),
        None => ArrayVec::new(),
    }
}

// Whether this part stands there in bytes.
fn has_at(bytes: &[u8], at: usize, part: &[u8]) -> bool {
    match bytes.get(at..) {
        Some(rest) => rest.starts_with(part),
        None => false,
    }
}

fn body_of(frame: Option<Frame>) -> ArrayVec<u8, 252> {
    match frame {
        Some(Frame::Long { body, .. }) => body,
        _ => ArrayVec::new(),
    }
}

#[test]
fn a_reset_is_acknowledged(rt: HostRuntime) -> Result<(), Fail> {
    let (c, m) = three_pulses()?;
    let mut slave = Slave::new();
    assert_eq!(rt; reply(&mut slave, RESET, &c, &m).as_slice(), ACK);
    assert!(rt; reply(&mut slave, RESET_OF_ANOTHER, &c, &m).is_empty());
    assert!(rt; reply(&mut slave, RESET_OF_ALL, &c, &m).is_empty());
    Ok(())
}

#[test]
fn a_request_that_is_repeated_has_the_same_telegram(rt: HostRuntime) -> Result<(), Fail> {
    let (c, m) = three_pulses()?;
    let mut slave = Slave::new();
    assert_eq!(rt;
        reply(&mut slave, REQUEST_7B, &c, &m).as_slice(),
        WITHOUT_MONTHS
    );
    assert_eq!(rt;
        reply(&mut slave, REQUEST_7B, &c, &m).as_slice(),
        WITHOUT_MONTHS
    );
    Ok(())
}

#[test]
fn a_reading_is_of_the_record_that_it_began_with(rt: HostRuntime) -> Result<(), Fail> {
    let (c, mut m) = three_pulses()?;
    let mut slave = Slave::new();
    m.move_to(day_of(2024, 2, 1).ok_or("no date")?, c.set_month)?;
    assert_eq!(rt; reply(&mut slave, REQUEST_7B, &c, &m).as_slice(), FIRST);
    m.move_to(day_of(2024, 3, 1).ok_or("no date")?, c.set_month)?;
    assert!(rt; reply(&mut slave, RESET_OF_ANOTHER, &c, &m).is_empty());
    assert_eq!(rt; reply(&mut slave, REQUEST_5B, &c, &m).as_slice(), SECOND);
    assert_eq!(rt; reply(&mut slave, REQUEST_5B, &c, &m).as_slice(), SECOND);
    // no further telegram of that record: the first of the record in force, with access number 2
    let anew = reply(&mut slave, REQUEST_7B, &c, &m);
    assert!(rt; has_at(anew.as_slice(), 15, &[0x02]));
    assert!(rt; has_at(anew.as_slice(), 31, &[0x02, 0x6C, 0x01, 0x33, 0x1F]));
    // a reset leaves the access number
    assert!(rt; reply(&mut slave, RESET_OF_ALL, &c, &m).is_empty());
    let after_reset = reply(&mut slave, REQUEST_7B, &c, &m);
    assert!(rt; has_at(after_reset.as_slice(), 15, &[0x03]));
    Ok(())
}

// A record with 24 month entries, from March 2023 to February 2025, and a set day: 1,234,567 pulses and
// 987,654.3 kWh.
fn full_record() -> Result<MeterRecord, Fail> {
    let mut m = MeterRecord::opening(day_of(2022, 12, 15).ok_or("no date")?);
    let step = Step {
        e_mj: 3_555_555_480_000_001,
        b_mj: 0,
        faulty: 0,
    };
    let register = Register::zero().after(step, 1_234_567)?;
    m.register = register;
    m.samples = Some((616_209_500, 596_985_625));
    m.move_to(day_of(2025, 2, 10).ok_or("no date")?, 1)?;
    Ok(m)
}

#[test]
fn a_full_record_has_four_telegrams(rt: HostRuntime) -> Result<(), Fail> {
    let mut c = Config::standard();
    c.place = Place::Flow;
    c.energy_decimals = 1;
    c.volume_decimals = 3;
    let m = full_record()?;
    let first = body_of(telegram(&c, &m, 0, 255));
    assert_eq!(rt;
        first.as_slice(),
        [
            0x78, 0x56, 0x34, 0x12, 0x43, 0x04, 0x01, 0x0C, 0xFF, 0x00, 0x00, 0x00, 0x0C, 0x05,
            0x43, 0x65, 0x87, 0x09, 0x0C, 0x13, 0x70, 0x56, 0x34, 0x12, 0x04, 0x58, 0x60, 0xEA,
            0x00, 0x00, 0x04, 0x5C, 0x50, 0xC3, 0x00, 0x00, 0x04, 0x60, 0x10, 0x27, 0x00, 0x00,
            0x02, 0x6C, 0x2A, 0x32, 0x42, 0x6C, 0x21, 0x31, 0x4C, 0x05, 0x43, 0x65, 0x87, 0x09,
            0x4C, 0x13, 0x70, 0x56, 0x34, 0x12, 0x1F,
        ]
        .as_slice()
    );
    assert_eq!(rt; body_of(telegram(&c, &m, 1, 0)).len(), 165);
    let third = body_of(telegram(&c, &m, 2, 1));
    assert_eq!(rt; third.len(), 165);
    // June 2024 is the ninth from the newest on
    assert!(rt; has_at(third.as_slice(), 12, &[0x82, 0x05, 0x6C, 0x01, 0x36]));
    let last = body_of(telegram(&c, &m, 3, 2));
    assert_eq!(rt; last.len(), 164);
    assert!(rt;
        has_at(
            last.as_slice(),
            145,
            &[
                0xC2, 0x0C, 0x6C, 0xE1, 0x23, 0xCC, 0x0C, 0x05, 0x43, 0x65, 0x87, 0x09, 0xCC, 0x0C,
                0x13, 0x70, 0x56, 0x34, 0x12,
            ],
        )
    );
    assert!(rt; telegram(&c, &m, 4, 3).is_none());
    Ok(())
}
