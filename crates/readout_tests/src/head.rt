//! The optical head.
ghost use Rattle.std.specs.Prelude.{◌≤◌, nat_abs};

use arrayvec::ArrayVec;
use billing_memory::{Day, MeterRecord, day_of};
use energy_register::{PulsesFull, Step};
use meter_config::Config;
use optical_readout::{Optical, REPLY_ROOM};
use std::test::Fail;

const REQUEST: &[u8] = b"/?!\r\n";

const DATA_SELECT: &[u8] = b"\x06050\r\n";

// The record of a new meter after three pulses with an energy in millijoules.
fn three_pulses(day: Day, e_mj: i128) -> Result<MeterRecord, PulsesFull>
    requires { nat_abs e_mj ≤ 6000000000000 }
{
    let mut record = MeterRecord::opening(day);
    let step = Step {
        e_mj,
        b_mj: 0,
        faulty: 0,
    };
    let register = record.register.after(step, 3)?;
    record.register = register;
    Ok(record)
}

// The standard configuration, and the record of a new meter of it after three pulses.
fn standard() -> Result<(Config, MeterRecord), PulsesFull> {
    let c = Config::standard();
    Ok((c, three_pulses(c.opening_day, 0)?))
}

fn is_reply(reply: &Option<ArrayVec<u8, REPLY_ROOM>>, text: &[u8]) -> bool {
    match reply {
        Some(message) => message.as_slice() == text,
        None => false,
    }
}

#[test]
fn a_request_and_an_option_select_are_answered(rt: HostRuntime) -> Result<(), Fail> {
    let (c, m) = standard()?;
    let mut head = Optical::new();
    assert!(rt; is_reply(&head.hear(REQUEST, &c, &m), b"/ABC5HEAT\r\n"));
    assert!(rt;
        is_reply(
            &head.hear(DATA_SELECT, &c, &m),
            b"\x029.21(12345678)\r\n6.8(00000000*kWh)\r\n6.26(000000.03*m3)\r\n9.36(2024-01-15)\r\n!\r\n\x031",
        )
    );
    assert!(rt; head.hear(DATA_SELECT, &c, &m).is_none());
    Ok(())
}

#[test]
fn a_select_is_answered_directly_after_a_request_alone(rt: HostRuntime) -> Result<(), Fail> {
    let (c, m) = standard()?;
    let mut head = Optical::new();
    assert!(rt; head.hear(DATA_SELECT, &c, &m).is_none());
    for other in [
        b"\x06051\r\n".as_slice(),
        b"\x06070\r\n",
        b"/?1!\r\n",
        b"/?\r\n",
        b"",
    ] {
        assert!(rt; head.hear(REQUEST, &c, &m).is_some());
        assert!(rt; head.hear(other, &c, &m).is_none());
        assert!(rt; head.hear(DATA_SELECT, &c, &m).is_none());
    }
    Ok(())
}

#[test]
fn an_address_is_the_serial_number(rt: HostRuntime) -> Result<(), Fail> {
    let (c, m) = standard()?;
    let mut head = Optical::new();
    assert!(rt; head.hear(b"/?12345678!\r\n", &c, &m).is_some());
    assert!(rt; head.hear(b"/?012345678!\r\n", &c, &m).is_some());
    assert!(rt;
        head.hear(b"/?00000000000000000000000012345678!\r\n", &c, &m)
            .is_some()
    );
    assert!(rt;
        head.hear(b"/?000000000000000000000000012345678!\r\n", &c, &m)
            .is_none()
    );
    assert!(rt; head.hear(b"/?12345678\r\n", &c, &m).is_none());
    assert!(rt; head.hear(b"/?1234567!\r\n", &c, &m).is_none());
    assert!(rt; head.hear(b"/?123456780!\r\n", &c, &m).is_none());
    assert!(rt; head.hear(b"/?ABC!\r\n", &c, &m).is_none());
    assert!(rt; head.hear(b"/?0!\r\n", &c, &m).is_none());
    Ok(())
}

#[test]
fn a_serial_number_of_zeros_is_any_zeros(rt: HostRuntime) -> Result<(), Fail> {
    let (mut c, m) = standard()?;
    c.serial = 0;
    let mut head = Optical::new();
    assert!(rt; head.hear(b"/?!\r\n", &c, &m).is_some());
    assert!(rt; head.hear(b"/?0!\r\n", &c, &m).is_some());
    assert!(rt; head.hear(b"/?00000000!\r\n", &c, &m).is_some());
    assert!(rt; head.hear(b"/?01!\r\n", &c, &m).is_none());
    assert!(rt; head.hear(b"/? !\r\n", &c, &m).is_none());
    Ok(())
}

#[test]
fn entries_are_said_newest_first(rt: HostRuntime) -> Result<(), Fail> {
    let c = Config::standard();
    let mut m = three_pulses(day_of(2024, 12, 15).ok_or("no date")?, 7_200_000_000)?;
    m.move_to(day_of(2025, 2, 10).ok_or("no date")?, 1)?;
    let mut head = Optical::new();
    assert!(rt; head.hear(REQUEST, &c, &m).is_some());
    assert!(rt;
        is_reply(
            &head.hear(DATA_SELECT, &c, &m),
            b"\x029.21(12345678)\r\n6.8(00000002*kWh)\r\n6.26(000000.03*m3)\r\n9.36(2025-02-10)\r\n\
6.8*01(2025-01-01)(00000002*kWh)\r\n6.26*01(2025-01-01)(000000.03*m3)\r\n\
6.8*02(2025-02-01)(00000002*kWh)\r\n6.26*02(2025-02-01)(000000.03*m3)\r\n\
6.8*03(2025-01-01)(00000002*kWh)\r\n6.26*03(2025-01-01)(000000.03*m3)\r\n!\r\n\x03-",
        )
    );
    Ok(())
}

#[test]
fn month_entries_begin_at_02(rt: HostRuntime) -> Result<(), Fail> {
    let (c, mut m) = standard()?;
    m.move_to(day_of(2024, 2, 10).ok_or("no date")?, 1)?;
    let mut head = Optical::new();
    assert!(rt; head.hear(REQUEST, &c, &m).is_some());
    assert!(rt;
        is_reply(
            &head.hear(DATA_SELECT, &c, &m),
            b"\x029.21(12345678)\r\n6.8(00000000*kWh)\r\n6.26(000000.03*m3)\r\n9.36(2024-02-10)\r\n\
6.8*02(2024-02-01)(00000000*kWh)\r\n6.26*02(2024-02-01)(000000.03*m3)\r\n!\r\n\x03,",
        )
    );
    Ok(())
}

#[test]
fn the_longest_message_fits(rt: HostRuntime) -> Result<(), Fail> {
    let mut c = Config::standard();
    c.energy_decimals = 3;
    c.volume_decimals = 3;
    let mut m = MeterRecord::opening(day_of(2000, 1, 1).ok_or("no date")?);
    m.move_to(day_of(2099, 12, 31).ok_or("no date")?, 1)?;
    let mut head = Optical::new();
    assert!(rt; head.hear(REQUEST, &c, &m).is_some());
    let reply = head.hear(DATA_SELECT, &c, &m).ok_or("no reply")?;
    assert_eq!(rt; reply.len(), 1830);
    Ok(())
}
