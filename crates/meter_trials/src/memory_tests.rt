//! What `run` leaves in a memory, and what `show` and `slots` show of it.
use crate::trial::{
    EMPTY, FIRST_DAY, Trial, damaged, ends, held_by, is_done, meter_with, standard_meter,
};
use arrayvec::ArrayVec;
use billing_memory::{MeterRecord, day_of};
use energy_register::{Register, Step};
use event_script::LineFault;
use meter_cli::Status;
use std::test::Fail;

#[test]
fn a_memory_is_shown(rt: HostRuntime) -> Result<(), Fail> {
    let memory = standard_meter(&rt)?;
    is_done(
        &rt,
        &Trial::new("show", &memory, b""),
        "serial 12345678\nday 2024-01-15\nseq 0\nvolume 000000.00 m3\nenergy 00000000 kWh\nregister 0 0 0\nfaulty 0\nset -\n",
    )?;
    Ok(())
}

// After 360 pulses of 10 litres and an energy below -2 kWh, which a display of eight digits shows as 10^8 - 3.
fn counted() -> Result<MeterRecord, Fail> {
    let step = Step {
        e_mj: -7_200_000_001,
        b_mj: 54_321,
        faulty: 2,
    };
    let mut m = MeterRecord::opening(day_of(2024, 11, 30).ok_or("no date")?);
    m.register = Register::zero().after(step, 360)?;
    m.faulty = 2;
    m.seq = 7;
    m.move_to(day_of(2025, 2, 3).ok_or("no date")?, 1)?;
    Ok(m)
}

#[test]
fn entries_are_shown(rt: HostRuntime) -> Result<(), Fail> {
    let memory = meter_with(&rt, &counted()?)?;
    is_done(
        &rt,
        &Trial::new("show", &memory, b""),
        "serial 12345678\nday 2025-02-03\nseq 7\nvolume 000003.60 m3\nenergy 99999997 kWh\nregister 3600 -7200000001 54321\nfaulty 2\nset 2025-01-01 3600 -7200000001 54321\nmonth 2024-12-01 3600 -7200000001 54321\nmonth 2025-01-01 3600 -7200000001 54321\nmonth 2025-02-01 3600 -7200000001 54321\n",
    )?;
    Ok(())
}

// A script with its answers, and what is shown then: months are entered, the set day is entered, a display begins anew.
#[test]
fn what_was_run_is_shown(rt: HostRuntime) -> Result<(), Fail> {
    let memory = standard_meter(&rt)?;
    for (script, answers, shown) in [
        (
            "pulse 3\ndate 2024-04-01\n",
            "ok 1 30 0 0\nok 2 30 0 0\n",
            "serial 12345678\nday 2024-04-01\nseq 2\nvolume 000000.03 m3\nenergy 00000000 kWh\nregister 30 0 0\nfaulty 0\nset -\nmonth 2024-02-01 30 0 0\nmonth 2024-03-01 30 0 0\nmonth 2024-04-01 30 0 0\n",
        ),
        (
            "date 2024-12-31\npulse 1\ndate 2025-01-01\n",
            "ok 1 0 0 0\nok 2 10 0 0\nok 3 10 0 0\n",
            "serial 12345678\nday 2025-01-01\nseq 3\nvolume 000000.01 m3\nenergy 00000000 kWh\nregister 10 0 0\nfaulty 0\nset 2025-01-01 10 0 0\nmonth 2024-02-01 0 0 0\nmonth 2024-03-01 0 0 0\nmonth 2024-04-01 0 0 0\nmonth 2024-05-01 0 0 0\nmonth 2024-06-01 0 0 0\nmonth 2024-07-01 0 0 0\nmonth 2024-08-01 0 0 0\nmonth 2024-09-01 0 0 0\nmonth 2024-10-01 0 0 0\nmonth 2024-11-01 0 0 0\nmonth 2024-12-01 0 0 0\nmonth 2025-01-01 10 0 0\n",
        ),
        (
            "pulse 100000000\npulse 1\n",
            "ok 1 1000000000 0 0\nok 2 1000000010 0 0\n",
            "serial 12345678\nday 2024-01-15\nseq 2\nvolume 000000.01 m3\nenergy 00000000 kWh\nregister 1000000010 0 0\nfaulty 0\nset -\n",
        ),
    ] {
        let trial = Trial::new("run", &memory, script.as_bytes());
        let left = is_done(&rt, &trial, answers)?;
        is_done(&rt, &Trial::new("show", &left.memory, b""), shown)?;
    }
    Ok(())
}

// 842.3915 ohms are 180 °C, the end of the range; half a litre of water at 180 and 0 °C gives off energy.
#[test]
fn pulses_at_samples_out_of_range_are_faulty(rt: HostRuntime) -> Result<(), Fail> {
    let memory = standard_meter(&rt)?;
    let trial = Trial::new("run", &memory, b"sample 842391500 0\npulse 2\n");
    let out = is_done(&rt, &trial, "ok 1 0 0 0\nok 2 20 0 0\n")?;
    assert_eq!(&rt; held_by(&rt, &out.memory)?.faulty, 2);
    let trial = Trial::new("run", &memory, b"sample 842391499 500000001\npulse 2");
    let inside = crate::trial::attempt(&rt, &trial.in_pieces(7))?;
    assert_eq!(&rt; inside.status, Status::Done);
    let sound = held_by(&rt, &inside.memory)?;
    assert_eq!(&rt; (sound.faulty, sound.seq), (0, 2));
    assert!(&rt; sound.register.energy_mj > 0);
    Ok(())
}

#[test]
fn events_before_a_refused_line_are_held(rt: HostRuntime) -> Result<(), Fail> {
    let memory = standard_meter(&rt)?;
    let trial = Trial::new(
        "run",
        &memory,
        b"date 2024-01-15\ndate 2024-01-14\npulse 1\n",
    );
    let kind = LineFault::DateBack {
        in_force: FIRST_DAY,
    };
    let left = ends(&rt, &trial, Status::Line { n: 2, kind }, b"ok 1 0 0 0\n")?;
    assert_eq!(&rt; held_by(&rt, &left.memory)?.seq, 1);
    Ok(())
}

#[test]
fn a_full_memory_is_left_as_it_is(rt: HostRuntime) -> Result<(), Fail> {
    let full = MeterRecord {
        seq: 1_000_000_000_000_000_000,
        day: FIRST_DAY,
        samples: None,
        faulty: 0,
        register: Register::zero(),
        months: ArrayVec::new(),
        set_day: None,
    };
    let memory = meter_with(&rt, &full)?;
    let kind = LineFault::EventsFull { seq: full.seq };
    let trial = Trial::new("run", &memory, b"pulse 1\n");
    let left = ends(&rt, &trial, Status::Line { n: 1, kind }, b"")?;
    assert!(&rt; left.memory == memory);
    Ok(())
}

// What each command answers on a standard meter in whose memory these bytes stand from this place on. It leaves the
// memory as it is.
#[test]
fn damaged_memories_have_their_answers(rt: HostRuntime) -> Result<(), Fail> {
    let done = Status::Done;
    let unformatted = Status::Unformatted { byte: 0 };
    for (words, at, bytes, status, output) in [
        (
            "show",
            520,
            [0xff, 0xff].as_slice(),
            Status::Foreign { at: 520 },
            "",
        ),
        ("show", 28, [1].as_slice(), Status::Foreign { at: 28 }, ""),
        ("show", 11, [2].as_slice(), Status::Foreign { at: 11 }, ""),
        ("show", 0, [0].as_slice(), unformatted, ""),
        ("run", 0, [0].as_slice(), unformatted, ""),
        (
            "run",
            520,
            [0xff, 0xff].as_slice(),
            Status::Foreign { at: 520 },
            "",
        ),
        ("run", 11, [2].as_slice(), Status::Foreign { at: 11 }, ""),
        ("slots", 0, [].as_slice(), done, "gate a\na 0\nb 0\n"),
        (
            "slots",
            2056,
            [0xff, 0xff].as_slice(),
            done,
            "gate a\na 0\nb foreign 2056\n",
        ),
        (
            "slots",
            520,
            [0xff, 0xff].as_slice(),
            done,
            "gate a\na foreign 520\nb 0\n",
        ),
        ("slots", 256, [0xff].as_slice(), done, "gate b\na 0\nb 0\n"),
        ("slots", 256, [0x5a].as_slice(), done, "gate a\na 0\nb 0\n"),
        ("slots", 0, [0].as_slice(), unformatted, ""),
        ("slots", 11, [2].as_slice(), Status::Foreign { at: 11 }, ""),
    ] {
        let memory = damaged(&rt, at, bytes)?;
        let trial = Trial::new(words, &memory, b"pulse 3\n");
        let left = ends(&rt, &trial, status, output.as_bytes())?;
        assert!(&rt; left.memory == memory);
    }
    ends(
        &rt,
        &Trial::new("run", &EMPTY, b"pulse 3\n"),
        unformatted,
        b"",
    )?;
    Ok(())
}

// Each place, from the end of the memory on, is damaged on top of the one before.
#[test]
fn the_first_field_that_breaks_its_rule_is_told(rt: HostRuntime) -> Result<(), Fail> {
    let mut memory = damaged(&rt, 520, &[0xff, 0xff])?;
    for (at, byte, status) in [
        (28, 1, Status::Foreign { at: 28 }),
        (11, 2, Status::Foreign { at: 11 }),
        (0, 0, Status::Unformatted { byte: 0 }),
    ] {
        *memory.get_mut(at).ok_or("no such place")? = byte;
        ends(&rt, &Trial::new("show", &memory, b""), status, b"")?;
    }
    Ok(())
}

#[test]
fn the_slot_of_a_new_record_is_shown(rt: HostRuntime) -> Result<(), Fail> {
    let memory = standard_meter(&rt)?;
    let metered = is_done(
        &rt,
        &Trial::new("run", &memory, b"pulse 3\n"),
        "ok 1 30 0 0\n",
    )?;
    let trial = Trial::new("slots", &metered.memory, b"");
    is_done(&rt, &trial, "gate b\na 0\nb 1\n")?;
    Ok(())
}
