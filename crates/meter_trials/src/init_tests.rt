//! `init`: the texts that it takes and refuses, and what it leaves.
use crate::trial::{EMPTY, FIRST_DAY, STANDARD, Trial, Trouble, ends, meter_with, standard_meter};
use billing_memory::MeterRecord;
use meter_cli::Status;
use meter_config::ConfigFault;
use std::process::Abort;
use std::test::Fail;

// The header of the standard configuration up to its last byte that isn't 0.
const HEADER: [u8; 24] = [
    0xa5, 0x01, 0x4e, 0x61, 0xbc, 0x00, 0x41, 0x42, 0x43, 0x01, 0x01, 0x01, 0x40, 0x06, 0xf4, 0x01,
    0x0a, 0x00, 0x00, 0x02, 0x01, 0x00, 0x4c, 0x22,
];

#[test]
fn a_memory_is_formatted_once(rt: HostRuntime) -> Result<(), Fail> {
    let memory = standard_meter(&rt)?;
    assert!(&rt; memory.starts_with(&HEADER));
    assert_eq!(&rt; memory.get(256), Some(&0));
    assert!(&rt; memory == meter_with(&rt, &MeterRecord::opening(FIRST_DAY))?);
    let trial = Trial::new("init", &memory, STANDARD.as_bytes());
    let again = ends(&rt, &trial, Status::Formatted, b"")?;
    assert!(&rt; again.memory == memory);
    Ok(())
}

/// The text is refused with this fault, and the memory stays as it was.
pub(crate) fn refused(
    rt: &(impl Abort + AllocGlobal),
    text: &[u8],
    fault: ConfigFault,
) -> Result<(), Fail> {
    let trial = Trial::new("init", &EMPTY, text);
    let left = ends(rt, &trial, Status::Config { fault }, b"")?;
    assert!(rt; left.memory.as_slice() == EMPTY.as_slice());
    Ok(())
}

#[test]
fn texts_are_refused(rt: HostRuntime) -> Result<(), Fail> {
    let address = STANDARD.replace(rt.alloc(), "\"address\":1", "\"address\":251")?;
    let another = STANDARD.replace(rt.alloc(), "}", ",\"zone\":1}")?;
    for (text, fault) in [
        (b"[]".as_slice(), ConfigFault::NotObject),
        (b"{}".as_slice(), ConfigFault::Missing { key: 0 }),
        (address.as_bytes(), ConfigFault::Wrong { key: 3 }),
        (another.as_bytes(), ConfigFault::Unknown { place: 12 }),
        ([b' '; 4097].as_slice(), ConfigFault::TooLong),
        ([b' '; 4096].as_slice(), ConfigFault::Text),
    ] {
        refused(&rt, text, fault)?;
    }
    Ok(())
}

// `init` is cut in the store or sync after so many of them, of which nothing is written but the fill. Then `run` answers
// so on the memory, which is as `init` leaves one where it is formatted.
fn is_cut(
    rt: &(impl Abort + AllocGlobal),
    calls: u16,
    fill: u8,
    after: Status,
) -> Result<(), Fail> {
    let call = calls.saturating_add(1);
    let cut = Trouble::Cut {
        call,
        keep: 0,
        fill,
    };
    let trial = Trial::new("init", &EMPTY, STANDARD.as_bytes()).with(cut);
    let left = ends(rt, &trial, Status::Cut, b"")?;
    ends(rt, &Trial::new("run", &left.memory, b""), after, b"")?;
    if left.memory.first() == Some(&0xa5) {
        assert!(rt; left.memory == standard_meter(rt)?);
    }
    Ok(())
}

// The calls are the store and the sync of the bytes 1 to 1,791, and the store and the sync of byte 0, the mark, whose
// value A5 says that the memory is formatted. A cut in the first two leaves byte 0 as it was.
#[test]
fn init_is_cut_at_each_call(rt: HostRuntime) -> Result<(), Fail> {
    let unformatted = Status::Unformatted { byte: 0 };
    for (calls, fill, after) in [
        (0, 0x00, unformatted),
        (0, 0xa5, unformatted),
        (1, 0x00, unformatted),
        (1, 0xa5, unformatted),
        (2, 0x00, unformatted),
        (2, 0xa5, Status::Done),
        (3, 0x00, unformatted),
        (3, 0xa5, Status::Done),
    ] {
        is_cut(&rt, calls, fill, after)?;
    }
    Ok(())
}
