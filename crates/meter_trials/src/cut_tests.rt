//! Power failures within an event: what `run` answers over them, and what the memory then holds. Where a power failure
//! stands for the end of a run and the start of another, the answers are compared with those of runs that nothing
//! interrupts.
use crate::trial::{EMPTY, Trial, Trouble, attempt, ends, held_by, standard_meter};
use meter_cli::Status;
use std::process::Abort;
use std::test::Fail;

// A script with lines of each kind. The second sample is that of 54 °C in place of 60 °C, and the date is beyond two
// first days of months.
const LINES: [&str; 14] = [
    "sample 616209500 596985625\n",
    "opt 2F3F210D0A\n",
    "pulse 100\n",
    "opt 063035300D0A\n",
    "mbus 1040014116\n",
    "date 2024-03-02\n",
    "mbus 107B017C16\n",
    "sample 604682105 596985625\n",
    "mbus 105B015C16\n",
    "power\n",
    "pulse 7\n",
    "opt 063035300D0A\n",
    "opt 2F3F210D0A\n",
    "opt 063035300D0A\n",
];

// The lines in one text.
fn joined(rt: &impl AllocGlobal, lines: &[&str]) -> Result<Vec<u8>, Fail> {
    let mut text = Vec::new(rt.alloc());
    for line in lines {
        text.extend_from_slice(line.as_bytes())?;
    }
    Ok(text)
}

// Runs this script over a memory, adds what it puts to the answers, and answers the memory that it leaves.
fn run_over(
    rt: &(impl Abort + AllocGlobal),
    memory: &[u8],
    script: &[u8],
    answers: &mut Vec<u8>,
) -> Result<Vec<u8>, Fail> {
    let left = attempt(rt, &Trial::new("run", memory, script))?;
    assert_eq!(rt; left.status, Status::Done);
    answers.extend_from_slice(&left.output)?;
    Ok(left.memory)
}

// What must come of a cut in an event: the answers, and the memory at the end.
#[derive(Drop)]
struct Outcome {
    answers: Vec<u8>,
    end: Vec<u8>,
}

// What is answered where the power fails at a line, and the memory then. It is put together from four runs: of the
// lines before, of this line without its answer where it is kept, of the line `power`, and of the lines behind.
fn put_together(
    rt: &(impl Abort + AllocGlobal),
    place: usize,
    kept: bool,
) -> Result<Outcome, Fail> {
    let before = joined(rt, LINES.get(..place).ok_or("no line")?)?;
    let (line, others) = LINES
        .get(place..)
        .and_then(|from| from.split_first())
        .ok_or("no line")?;
    let behind = joined(rt, others)?;
    let mut answers = Vec::new(rt.alloc());
    let mut ignored = Vec::new(rt.alloc());
    let mut memory = run_over(rt, &standard_meter(rt)?, &before, &mut answers)?;
    if kept {
        memory = run_over(rt, &memory, line.as_bytes(), &mut ignored)?;
    }
    let restarted = run_over(rt, &memory, b"power\n", &mut answers)?;
    let end = run_over(rt, &restarted, &behind, &mut answers)?;
    Ok(Outcome { answers, end })
}

// The event whose line has this place is cut at each of its calls, which are the store and the sync of the slot, and
// the store and the sync of the gate, whose lowest bit decides. The events before make so many stores and syncs: four
// each. The first event's record goes to slot B, which the gate 1 chooses, the next one's to slot A, and so on.
fn is_cut_at_each_call(
    rt: &(impl Abort + AllocGlobal),
    place: usize,
    calls_before: u16,
    gate: u8,
) -> Result<(), Fail> {
    let memory = standard_meter(rt)?;
    let script = joined(rt, &LINES)?;
    let trial = Trial::new("run", &memory, &script);
    let lost = put_together(rt, place, false)?;
    let kept = put_together(rt, place, true)?;
    for call in [0, 1, 2, 3] {
        for (keep, fill) in CUTS {
            let is_kept = call >= 2 && (keep >= 1 || fill % 2 == gate);
            let outcome = if is_kept { &kept } else { &lost };
            let call = calls_before.saturating_add(call).saturating_add(1);
            let cut = Trouble::Cut { call, keep, fill };
            let left = ends(rt, &trial.with(cut), Status::Done, &outcome.answers)?;
            assert!(rt; held_by(rt, &left.memory)? == held_by(rt, &outcome.end)?);
        }
    }
    Ok(())
}

// Nothing of the range is written, one byte (of the gate, all), half of the slot, and all, with each fill.
const CUTS: [(u16, u8); 12] = [
    (0, 0x00),
    (1, 0x00),
    (640, 0x00),
    (1_280, 0x00),
    (0, 0xff),
    (1, 0xff),
    (640, 0xff),
    (1_280, 0xff),
    (0, 0xa5),
    (1, 0xa5),
    (640, 0xa5),
    (1_280, 0xa5),
];

#[test]
fn a_first_sample_is_cut_at_each_call(rt: HostRuntime) -> Result<(), Fail> {
    is_cut_at_each_call(&rt, 0, 0, 1)
}

#[test]
fn pulses_are_cut_at_each_call(rt: HostRuntime) -> Result<(), Fail> {
    is_cut_at_each_call(&rt, 2, 4, 0)
}

#[test]
fn a_date_is_cut_at_each_call(rt: HostRuntime) -> Result<(), Fail> {
    is_cut_at_each_call(&rt, 5, 8, 1)
}

#[test]
fn a_later_sample_is_cut_at_each_call(rt: HostRuntime) -> Result<(), Fail> {
    is_cut_at_each_call(&rt, 7, 12, 0)
}

#[test]
fn the_last_pulses_are_cut_at_each_call(rt: HostRuntime) -> Result<(), Fail> {
    is_cut_at_each_call(&rt, 10, 16, 1)
}

// The five events make 20 calls: one that is cut behind them leaves all as it is.
#[test]
fn a_cut_behind_the_last_call_changes_nothing(rt: HostRuntime) -> Result<(), Fail> {
    let memory = standard_meter(&rt)?;
    let script = joined(&rt, &LINES)?;
    let mut uncut = Vec::new(rt.alloc());
    run_over(&rt, &memory, &script, &mut uncut)?;
    let cut = Trouble::Cut {
        call: 21,
        keep: 0,
        fill: 0xff,
    };
    let trial = Trial::new("run", &memory, &script);
    ends(&rt, &trial.with(cut), Status::Done, &uncut)?;
    Ok(())
}

// What `dry` puts for this script.
fn dry_puts(rt: &(impl Abort + AllocGlobal), script: &[u8]) -> Result<Vec<u8>, Fail> {
    let left = attempt(rt, &Trial::new("dry", &EMPTY, script))?;
    assert_eq!(rt; left.status, Status::Done);
    Ok(left.output)
}

// The sample that is lost leaves no trace: the lines before and behind are those that `dry` puts without it, and the
// line of the power failure has the numbers of the one before.
#[test]
fn a_lost_event_is_as_one_that_was_never_heard(rt: HostRuntime) -> Result<(), Fail> {
    let before = dry_puts(&rt, b"sample 616209500 596985625\npulse 100\n")?;
    let all = dry_puts(&rt, b"sample 616209500 596985625\npulse 100\npulse 7\n")?;
    let first = b"ok 1 0 0 0\nok".as_slice();
    let mut wanted = Vec::new(rt.alloc());
    wanted.extend_from_slice(&before)?;
    wanted.extend_from_slice(b"armed\npower")?;
    wanted.extend_from_slice(before.get(first.len()..).ok_or("no second line")?)?;
    wanted.extend_from_slice(all.get(before.len()..).ok_or("no third line")?)?;
    let memory = standard_meter(&rt)?;
    let script =
        b"sample 616209500 596985625\npulse 100\ncut 4 0 00\nsample 604682105 596985625\npulse 7\n";
    ends(
        &rt,
        &Trial::new("run", &memory, script),
        Status::Done,
        &wanted,
    )?;
    Ok(())
}
