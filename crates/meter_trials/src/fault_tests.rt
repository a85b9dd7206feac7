//! Calls that fail: of the source, of the memory and of the output.
use crate::trial::{EMPTY, Left, STANDARD, Trial, Trouble, attempt, ends, held_by, standard_meter};
use event_script::LineFault;
use meter_board::CallKind;
use meter_cli::Status;
use std::process::Abort;
use std::test::Fail;

// The call of this kind and number fails.
fn call(kind: CallKind, number: u32) -> Trouble {
    Trouble::Call { kind, number }
}

#[test]
fn faults_of_dry_are_told(rt: HostRuntime) -> Result<(), Fail> {
    let trial = Trial::new("dry", &EMPTY, b"pulse 3").in_pieces(1);
    ends(
        &rt,
        &trial.with(Trouble::Read { number: 5 }),
        Status::Read,
        b"",
    )?;
    let trial = Trial::new("dry", &EMPTY, b"pulse 3");
    ends(
        &rt,
        &trial.with(call(CallKind::Put, 1)),
        Status::Write,
        b"ok 1 3",
    )?;
    Ok(())
}

// Lines that were delivered are answered before a read that fails, and bytes that were delivered refuse a line.
#[test]
fn delivered_bytes_stand_before_a_failed_read(rt: HostRuntime) -> Result<(), Fail> {
    let memory = standard_meter(&rt)?;
    let too_long = [b'x'; 121];
    for (words, script, number, status, output) in [
        (
            "dry",
            b"pulse 0\npulse 3\n".as_slice(),
            9,
            Status::Line {
                n: 1,
                kind: LineFault::Grammar { at: 1 },
            },
            b"".as_slice(),
        ),
        (
            "dry",
            b"pulse 3\npulse 4".as_slice(),
            10,
            Status::Read,
            b"ok 1 30 0 0\n".as_slice(),
        ),
        (
            "run",
            b"pulse 3\npulse 4".as_slice(),
            10,
            Status::Read,
            b"ok 1 30 0 0\n".as_slice(),
        ),
        (
            "dry",
            too_long.as_slice(),
            122,
            Status::Line {
                n: 1,
                kind: LineFault::TooLong,
            },
            b"".as_slice(),
        ),
    ] {
        let trial = Trial::new(words, &memory, script).in_pieces(1);
        ends(&rt, &trial.with(Trouble::Read { number }), status, output)?;
    }
    Ok(())
}

// The second of two reads of a line fails, and the read behind it.
#[test]
fn a_source_that_fails_leaves_what_was_delivered(rt: HostRuntime) -> Result<(), Fail> {
    let memory = standard_meter(&rt)?;
    let trial = Trial::new("run", &memory, b"pulse 3\n").in_pieces(4);
    let within = attempt(&rt, &trial.with(Trouble::Read { number: 2 }))?;
    assert_eq!(&rt; within.status, Status::Read);
    assert!(&rt; within.memory == memory);
    let behind = Trouble::Read { number: 3 };
    let left = ends(&rt, &trial.with(behind), Status::Read, b"ok 1 30 0 0\n")?;
    assert_eq!(&rt; held_by(&rt, &left.memory)?.seq, 1);
    Ok(())
}

#[test]
fn faults_of_init_are_told(rt: HostRuntime) -> Result<(), Fail> {
    let trial = Trial::new("init", &EMPTY, STANDARD.as_bytes());
    for (kind, status) in [
        (CallKind::Load, Status::Memory),
        (CallKind::Store, Status::Memory),
        (CallKind::Sync, Status::Memory),
        (CallKind::Put, Status::Write),
    ] {
        let left = attempt(&rt, &trial.with(call(kind, 1)))?;
        assert_eq!(&rt; left.status, status);
    }
    let left = attempt(&rt, &trial.with(Trouble::Read { number: 2 }))?;
    assert_eq!(&rt; left.status, Status::Read);
    Ok(())
}

#[test]
fn faults_of_show_are_told(rt: HostRuntime) -> Result<(), Fail> {
    let memory = standard_meter(&rt)?;
    let trial = Trial::new("show", &memory, b"");
    let unread = attempt(&rt, &trial.with(call(CallKind::Load, 3)))?;
    assert_eq!(&rt; unread.status, Status::Memory);
    let unsaid = attempt(&rt, &trial.with(call(CallKind::Put, 2)))?;
    assert_eq!(&rt; unsaid.status, Status::Write);
    Ok(())
}

#[test]
fn faults_of_slots_are_told(rt: HostRuntime) -> Result<(), Fail> {
    let memory = standard_meter(&rt)?;
    let trial = Trial::new("slots", &memory, b"");
    for number in 1..5 {
        ends(
            &rt,
            &trial.with(call(CallKind::Load, number)),
            Status::Memory,
            b"",
        )?;
    }
    ends(
        &rt,
        &trial.with(call(CallKind::Put, 2)),
        Status::Write,
        b"gate a\na ",
    )?;
    Ok(())
}

// Where a call of this kind and number fails, `run` ends with this status after this output, and the memory then
// holds so many events.
#[test]
fn calls_that_fail_end_a_run(rt: HostRuntime) -> Result<(), Fail> {
    let memory = standard_meter(&rt)?;
    let trial = Trial::new("run", &memory, b"pulse 3\npulse 3\n");
    let first = "ok 1 30 0 0\n";
    for (kind, number, status, output, events) in [
        (CallKind::Load, 1, Status::Memory, "", 0),
        (CallKind::Store, 1, Status::Memory, "", 0),
        (CallKind::Store, 2, Status::Memory, "", 0),
        (CallKind::Sync, 1, Status::Memory, "", 0),
        (CallKind::Sync, 2, Status::Memory, "", 1),
        (CallKind::Store, 3, Status::Memory, first, 1),
        (CallKind::Store, 4, Status::Memory, first, 1),
        (CallKind::Sync, 3, Status::Memory, first, 1),
        (CallKind::Sync, 4, Status::Memory, first, 2),
        (CallKind::Put, 1, Status::Write, "ok 1 3", 1),
        (CallKind::Put, 2, Status::Write, "ok 1 30 0 0\nok 2 6", 2),
    ] {
        let left = ends(
            &rt,
            &trial.with(call(kind, number)),
            status,
            output.as_bytes(),
        )?;
        assert_eq!(&rt; held_by(&rt, &left.memory)?.seq, events);
    }
    Ok(())
}

#[test]
fn a_board_whose_power_line_fails_ends_the_run(rt: HostRuntime) -> Result<(), Fail> {
    let memory = standard_meter(&rt)?;
    let trial = Trial::new("run", &memory, b"power\n");
    ends(
        &rt,
        &trial.with(call(CallKind::Power, 1)),
        Status::Memory,
        b"",
    )?;
    Ok(())
}

#[test]
fn a_board_without_room_fails(rt: HostRuntime) -> Result<(), Fail> {
    let memory = standard_meter(&rt)?;
    for (script, status) in [
        (b"".as_slice(), Status::Done),
        (b"pulse 3\n".as_slice(), Status::Memory),
        (b"cut 1 0 00\n".as_slice(), Status::Memory),
        (b"power\n".as_slice(), Status::Memory),
    ] {
        let trial = Trial::new("run", &memory, script).with_room(0, 0);
        let left = ends(&rt, &trial, status, b"")?;
        assert!(&rt; left.memory == memory);
    }
    Ok(())
}

/// What a memory reads that has nothing of this meter.
const STRANGE: [u8; 16384] = [0x5a; 16384];

// Commands that make no call on the memory, over a board whose every such call fails. Of the others one would be a
// fault of the memory.
// What these words leave where each call on the memory fails. The memory is left as it is.
fn left_without_memory(
    rt: &(impl Abort + AllocGlobal),
    words: &str,
    script: &str,
) -> Result<Left, Fail> {
    let trial = Trial::new(words, &STRANGE, script.as_bytes());
    let left = attempt(rt, &trial.with(Trouble::Memory))?;
    assert!(rt; left.memory.as_slice() == STRANGE.as_slice());
    Ok(left)
}

#[test]
fn commands_without_a_memory_are_done_without_it(rt: HostRuntime) -> Result<(), Fail> {
    for (words, script) in [
        ("dry", "pulse 3\npulse 12\n"),
        ("temp 500 596985625", ""),
        ("temp 500 500000000", ""),
        ("water 3000 26850000", ""),
        ("k return 1600 60000000 50000000", ""),
        (
            "bench calc 500 return 1600 3000000 616209500 596985625 100 4163460000",
            "",
        ),
        (
            "bench pair 500 3000000 54000000 50000000 604682105 596985625",
            "",
        ),
        ("bench flow 2 1500 15 100000 104001", ""),
        ("gen 1 1", ""),
    ] {
        let left = left_without_memory(&rt, words, script)?;
        assert_eq!(&rt; left.status, Status::Done, "{words}");
        let with_memory = attempt(&rt, &Trial::new(words, &STRANGE, script.as_bytes()))?;
        assert!(&rt; left.output == with_memory.output, "{words}");
    }
    Ok(())
}

#[test]
fn commands_over_a_memory_fail_with_it(rt: HostRuntime) -> Result<(), Fail> {
    for words in ["run", "show", "slots"] {
        let left = left_without_memory(&rt, words, "")?;
        assert_eq!(&rt; left.status, Status::Memory, "{words}");
    }
    Ok(())
}
