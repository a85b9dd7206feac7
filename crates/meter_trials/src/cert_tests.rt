//! Certificates that enthalpy rises, and how they may end.
use crate::shown::{line_of, number};
use crate::trial::{EMPTY, Trial, attempt};
use meter_cli::Status;
use std::process::Abort;
use std::test::Fail;

// The line of this degree. The heat capacity of water lies between 4.0 and 4.6 kJ/(kg K): the range holds a number
// between them.
fn is_slope(rt: &impl Abort, line: &str, segment: i128) -> Result<(), Fail> {
    let mut words = line.split_whitespace();
    assert_eq!(rt; words.next(), Some("slope"));
    assert_eq!(rt; number(words.next())?, segment);
    let lo = number(words.next())?;
    let hi = number(words.next())?;
    assert_eq!(rt; words.next(), None);
    assert!(rt; 0 < lo && lo <= 4_600_000_000 && 4_000_000_000 <= hi);
    Ok(())
}

fn is_certificate(rt: &impl Abort, text: &str) -> Result<(), Fail> {
    let mut lines = text.lines();
    for segment in 0..180 {
        is_slope(rt, lines.next().ok_or("no line")?, segment)?;
    }
    assert_eq!(rt; lines.next(), Some("yes"));
    assert_eq!(rt; lines.next(), None);
    Ok(())
}

#[test]
fn enthalpy_rises_at_three_pressures(rt: HostRuntime) -> Result<(), Fail> {
    for words in ["cert 1100", "cert 1600", "cert 4000"] {
        is_certificate(&rt, line_of(&rt, words)?.as_str())?;
    }
    Ok(())
}

// A board with room for 100 lines takes those of the first 100 segments.
#[test]
fn output_that_fails_ends_a_certificate(rt: HostRuntime) -> Result<(), Fail> {
    let trial = Trial::new("cert 1600", &EMPTY, b"").with_room(100, 10_000);
    let left = attempt(&rt, &trial)?;
    assert_eq!(&rt; left.status, Status::Write);
    assert_eq!(&rt; std::str::from_utf8(&left.output)?.lines().count(), 100);
    Ok(())
}
