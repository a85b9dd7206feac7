//! The numbers and texts of statuses.
use billing_memory::day_of;
use event_script::LineFault;
use meter_cli::{Status, status_code, status_line};
use meter_config::ConfigFault;
use std::test::Fail;

#[test]
fn statuses_have_texts(rt: HostRuntime) -> Result<(), Fail> {
    let in_force = day_of(2024, 1, 15).ok_or("no date")?;
    for (status, code, text) in [
        (Status::Done, 0, ""),
        (Status::Usage { word: 1 }, 2, "usage: word 1"),
        (
            Status::Line {
                n: 2,
                kind: LineFault::Grammar { at: 0 },
            },
            4,
            "line 2: word 0",
        ),
        (
            Status::Line {
                n: 2,
                kind: LineFault::DateBack { in_force },
            },
            4,
            "line 2: date before 2024-01-15",
        ),
        (
            Status::Line {
                n: 7,
                kind: LineFault::EventsFull {
                    seq: 1_000_000_000_000_000_000,
                },
            },
            4,
            "line 7: events 1000000000000000000",
        ),
        (
            Status::Line {
                n: 1_000_001,
                kind: LineFault::TooMany,
            },
            4,
            "line 1000001: too many",
        ),
        (
            Status::Line {
                n: 3,
                kind: LineFault::NotDry,
            },
            4,
            "line 3: not in dry",
        ),
        (Status::Memory, 5, "memory fault"),
        (Status::Read, 6, "read fault"),
        (Status::Write, 7, "write fault"),
        (Status::Unformatted { byte: 0x0e }, 8, "not formatted: 0e"),
        (Status::Unformatted { byte: 0xf9 }, 8, "not formatted: f9"),
        (Status::Foreign { at: 520 }, 9, "foreign at 520"),
        (Status::Formatted, 10, "already formatted"),
        (Status::OutOfMemory, 11, "out of memory"),
        (Status::Cut, 12, "power cut"),
        (Status::BadReadout { at: 38 }, 14, "bad readout at 38"),
        (Status::NotRising { segment: 179 }, 16, "not rising at 179"),
    ] {
        assert_eq!(&rt; status_code(&status), code);
        assert_eq!(&rt; status_line(&status).as_str(), text);
    }
    Ok(())
}

#[test]
fn refused_texts_have_texts(rt: HostRuntime) {
    for (fault, text) in [
        (ConfigFault::TooLong, "config: too long"),
        (ConfigFault::Text, "config: text"),
        (ConfigFault::NotObject, "config: not an object"),
        (ConfigFault::Missing { key: 0 }, "config: missing serial"),
        (
            ConfigFault::Missing { key: 7 },
            "config: missing litres_per_pulse",
        ),
        (ConfigFault::Wrong { key: 3 }, "config: wrong address"),
        (ConfigFault::Wrong { key: 12 }, "config: wrong calibration"),
        (ConfigFault::Wrong { key: 13 }, "config: wrong "),
        (ConfigFault::Unknown { place: 12 }, "config: unknown key 12"),
        (ConfigFault::OutOfMemory, "out of memory"),
    ] {
        let status = Status::Config { fault };
        assert_eq!(&rt; status_code(&status), 3);
        assert_eq!(&rt; status_line(&status).as_str(), text);
    }
}
