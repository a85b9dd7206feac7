//! Scripts of `dry` and `run`, with their output lines.
use crate::shown::number;
use crate::trial::{EMPTY, STANDARD, Trial, ends, is_done, standard_meter};
use billing_memory::day_of;
use event_script::LineFault;
use meter_cli::Status;
use std::process::Abort;
use std::test::Fail;

#[test]
fn lines_have_their_answers(rt: HostRuntime) -> Result<(), Fail> {
    is_done(&rt, &Trial::new("dry", &EMPTY, b"").in_pieces(1), "")?;
    for piece in [1, 2, 7, 4096] {
        for (script, output) in [
            ("pulse 3\n", "ok 1 30 0 0\n"),
            ("pulse 3", "ok 1 30 0 0\n"),
            ("pulse 3\npulse 2\n", "ok 1 30 0 0\nok 2 50 0 0\n"),
        ] {
            let trial = Trial::new("dry", &EMPTY, script.as_bytes());
            is_done(&rt, &trial.in_pieces(piece), output)?;
        }
    }
    Ok(())
}

// What an output line shows: the number of events, the litres, the energy and its bound.
type Shown = (i128, i128, i128, i128);

fn shown(
    rt: &(impl Abort + AllocGlobal),
    words: &str,
    memory: &[u8],
    script: &str,
) -> Result<Vec<Shown>, Fail> {
    let left = crate::trial::attempt(rt, &Trial::new(words, memory, script.as_bytes()))?;
    assert_eq!(rt; left.status, Status::Done);
    let mut shown = Vec::new(rt.alloc());
    for line in std::str::from_utf8(&left.output)?.lines() {
        shown.push(shown_by(rt, line)?)?;
    }
    Ok(shown)
}

fn shown_by(rt: &impl Abort, line: &str) -> Result<Shown, Fail> {
    let mut words = line.split_whitespace();
    assert_eq!(rt; words.next(), Some("ok"));
    let seq = number(words.next())?;
    let litres = number(words.next())?;
    let energy = number(words.next())?;
    let bound = number(words.next())?;
    assert_eq!(rt; words.next(), None);
    Ok((seq, litres, energy, bound))
}

// A litre from 60 to 50 °C gives off about 41.4 kJ.
#[test]
fn energy_is_counted_between_samples_in_range(rt: HostRuntime) -> Result<(), Fail> {
    let script = "pulse 1\nsample 616209500 596985625\npulse 1\nsample 0 596985625\npulse 1\n";
    let shown = shown(&rt, "dry", &EMPTY, script)?;
    let (_, _, energy, bound) = *shown.get(2).ok_or("no line")?;
    let want = [
        (1, 10, 0, 0),
        (2, 10, 0, 0),
        (3, 20, energy, bound),
        (4, 20, energy, bound),
        (5, 30, energy, bound),
    ];
    assert_eq!(&rt; shown.as_slice(), want.as_slice());
    assert!(&rt; 410_000_000 <= energy && energy <= 417_000_000);
    Ok(())
}

// A thousand litres from 60 to 50 °C are counted by one line.
fn a_thousand_litres_count(rt: &impl Abort, shown: &[Shown]) -> Result<(), Fail> {
    let (_, _, energy, bound) = *shown.get(1).ok_or("no line")?;
    let want = [(1, 0, 0, 0), (2, 1000, energy, bound)];
    assert_eq!(rt; shown, want.as_slice());
    assert!(rt; 41_000_000_000 <= energy && energy <= 41_700_000_000);
    assert!(rt; 0 <= bound && bound <= 1_500_000);
    Ok(())
}

#[test]
fn pulses_of_one_line_are_counted_together(rt: HostRuntime) -> Result<(), Fail> {
    let script = "sample 616209500 596985625\npulse 100\n";
    a_thousand_litres_count(&rt, &shown(&rt, "dry", &EMPTY, script)?)
}

// The flow is 9,999 and then 10,000 microdegrees warmer than the return.
#[test]
fn energy_is_counted_from_a_hundredth_of_a_degree_on(rt: HostRuntime) -> Result<(), Fail> {
    let script = "sample 597004877 596985625\npulse 1\nsample 597004878 596985625\npulse 1\n";
    let shown = shown(&rt, "dry", &EMPTY, script)?;
    let (_, _, energy, bound) = *shown.get(3).ok_or("no line")?;
    let want = [
        (1, 0, 0, 0),
        (2, 10, 0, 0),
        (3, 10, 0, 0),
        (4, 20, energy, bound),
    ];
    assert_eq!(&rt; shown.as_slice(), want.as_slice());
    assert!(&rt; 300_000 <= energy && energy <= 520_000);
    assert!(&rt; 0 <= bound && bound <= 15_000);
    Ok(())
}

// A Pt500 of 501 ohms at 0 °C in the flow.
const CALIBRATION: &str =
    ",\"calibration\":{\"flow_r0\":501000000,\"flow_a\":39083000,\"flow_b\":5775,\"return_r0\":500000000,\"return_a\":39083000,\"return_b\":5775}}";

// 617.441919 ohms of that sensor are 60 °C, so a litre gives off what it does between nominal sensors at 60 and 50 °C.
#[test]
fn calibrated_sensors_are_read_by_their_constants(rt: HostRuntime) -> Result<(), Fail> {
    let text = STANDARD.replace(rt.alloc(), "}", CALIBRATION)?;
    let made = is_done(
        &rt,
        &Trial::new("init", &EMPTY, text.as_bytes()),
        "init 12345678\n",
    )?;
    let script = "sample 617441919 596985625\npulse 100\n";
    a_thousand_litres_count(&rt, &shown(&rt, "run", &made.memory, script)?)
}

#[test]
fn constants_that_do_not_fit_are_refused(rt: HostRuntime) -> Result<(), Fail> {
    let calibration = CALIBRATION.replace(rt.alloc(), "\"flow_b\":5775", "\"flow_b\":5499")?;
    let text = STANDARD.replace(rt.alloc(), "}", &calibration)?;
    crate::init_tests::refused(
        &rt,
        text.as_bytes(),
        meter_config::ConfigFault::Wrong { key: 12 },
    )
}

// A line that is refused for its words at this place.
fn grammar(at: u8) -> LineFault {
    LineFault::Grammar { at }
}

#[test]
fn lines_are_refused(rt: HostRuntime) -> Result<(), Fail> {
    let in_force = day_of(2024, 1, 15).ok_or("no date")?;
    let sum = 1_000_000_000_000_001;
    for (script, n, kind, output) in [
        (
            b"pulse 1000000000000000\npulse 1\n".as_slice(),
            2,
            LineFault::PulsesFull { sum },
            b"ok 1 10000000000000000 0 0\n".as_slice(),
        ),
        (
            b"date 2024-01-15\ndate 2024-01-14\n".as_slice(),
            2,
            LineFault::DateBack { in_force },
            b"ok 1 0 0 0\n".as_slice(),
        ),
        (b"pulse 0".as_slice(), 1, grammar(1), b"".as_slice()),
        (b"\npulse 3".as_slice(), 1, grammar(0), b"".as_slice()),
        (b"pulse 3 4".as_slice(), 1, grammar(2), b"".as_slice()),
        (b"pulse 01".as_slice(), 1, grammar(1), b"".as_slice()),
        (b"pulse".as_slice(), 1, grammar(1), b"".as_slice()),
        (b"pulse\t3".as_slice(), 1, grammar(0), b"".as_slice()),
        (b"pulse 3\r\n".as_slice(), 1, grammar(1), b"".as_slice()),
        (b"pulse 3 ".as_slice(), 1, grammar(2), b"".as_slice()),
        (
            [b'x'; 121].as_slice(),
            1,
            LineFault::TooLong,
            b"".as_slice(),
        ),
        ([b'x'; 120].as_slice(), 1, grammar(0), b"".as_slice()),
        (
            b"opt 2F3F210D0A\n".as_slice(),
            1,
            LineFault::NotDry,
            b"".as_slice(),
        ),
        (b"power\n".as_slice(), 1, LineFault::NotDry, b"".as_slice()),
        (
            b"cut 1 0 00\n".as_slice(),
            1,
            LineFault::NotDry,
            b"".as_slice(),
        ),
    ] {
        let trial = Trial::new("dry", &EMPTY, script);
        ends(&rt, &trial, Status::Line { n, kind }, output)?;
    }
    Ok(())
}

// What `run` puts for a script over a standard meter, where it is done. The messages were computed apart from the
// program.
const SCRIPTS: [(&str, &str); 15] = [
    // The optical head is read.
    (
        "pulse 3\nopt 2F3F210D0A\nopt 063035300D0A\n",
        "ok 1 30 0 0\nopt 1 2f41424335484541540d0a\nopt 1 02392e3231283132333435363738290d0a362e382830303030303030302a6b5768290d0a362e3236283030303030302e30332a6d33290d0a392e333628323032342d30312d3135290d0a210d0a0331\n",
    ),
    // Another kind of data, a request without its `!`, and an option select that nobody asked for before.
    (
        "opt 2f3f210d0a\nopt 063035310D0A\nopt 2F3F31323334353637380D0A\nopt 063035300D0A\n",
        "opt 0 2f41424335484541540d0a\nopt 0 -\nopt 0 -\nopt 0 -\n",
    ),
    // A reset, and one with a wrong checksum.
    (
        "mbus 1040014116\nmbus 1040014216\n",
        "mbus 0 e5\nmbus 0 -\n",
    ),
    // A repeated request has the same telegram.
    (
        "pulse 3\nmbus 107B017C16\nmbus 107B017C16\n",
        "ok 1 30 0 0\nmbus 1 681f1f680801727856341243040104000000000c06000000000c1403000000026c0f31be16\nmbus 1 681f1f680801727856341243040104000000000c06000000000c1403000000026c0f31be16\n",
    ),
    // An event whose slot is torn is lost.
    (
        "cut 1 7 5A\npulse 3\npulse 3\n",
        "armed\npower 0 0 0 0\nok 1 30 0 0\n",
    ),
    // The gate decides what is kept.
    ("cut 3 0 FF\npulse 3\n", "armed\npower 1 30 0 0\n"),
    ("cut 3 0 00\npulse 3\n", "armed\npower 0 0 0 0\n"),
    ("cut 4 1 00\npulse 3\n", "armed\npower 1 30 0 0\n"),
    ("cut 4 0 00\npulse 3\n", "armed\npower 0 0 0 0\n"),
    // What was answered outlives the power.
    (
        "pulse 3\npower\npulse 3\n",
        "ok 1 30 0 0\npower 1 30 0 0\nok 2 60 0 0\n",
    ),
    // A cut waits over a power failure.
    (
        "cut 1 0 00\npower\npulse 3\n",
        "armed\npower 0 0 0 0\npower 0 0 0 0\n",
    ),
    // A run goes on over two cuts.
    (
        "cut 2 0 00\npulse 3\ncut 4 1 00\npulse 3\npulse 3\n",
        "armed\npower 0 0 0 0\narmed\npower 1 30 0 0\nok 2 60 0 0\n",
    ),
    // A later cut takes the place of one that waits.
    (
        "cut 1 0 00\ncut 8 1 00\npulse 3\npulse 3\npulse 3\n",
        "armed\narmed\nok 1 30 0 0\npower 2 60 0 0\nok 3 90 0 0\n",
    ),
    // The optical head forgets.
    (
        "opt 2F3F210D0A\npower\nopt 063035300D0A\n",
        "opt 0 2f41424335484541540d0a\npower 0 0 0 0\nopt 0 -\n",
    ),
    // So does the slave: the request with the other control field begins a reading, with the access number 0, as
    // the first did.
    (
        "pulse 3\nmbus 107B017C16\npower\nmbus 105B015C16\n",
        "ok 1 30 0 0\nmbus 1 681f1f680801727856341243040104000000000c06000000000c1403000000026c0f31be16\npower 1 30 0 0\nmbus 1 681f1f680801727856341243040104000000000c06000000000c1403000000026c0f31be16\n",
    ),
];

#[test]
fn scripts_have_their_answers(rt: HostRuntime) -> Result<(), Fail> {
    let memory = standard_meter(&rt)?;
    for (script, output) in SCRIPTS {
        is_done(&rt, &Trial::new("run", &memory, script.as_bytes()), output)?;
    }
    Ok(())
}

// The second telegram has the one month entry that stood when the reading began.
#[test]
fn the_same_is_answered_however_the_source_cuts_its_bytes(rt: HostRuntime) -> Result<(), Fail> {
    let memory = standard_meter(&rt)?;
    let script = b"pulse 3\ndate 2024-02-01\nmbus 107B017C16\ndate 2024-03-01\nmbus 105B015C16\n";
    let output =
        "ok 1 30 0 0\nok 2 30 0 0\nmbus 2 682020680801727856341243040104000000000c06000000000c1403000000026c01321fd016\nok 3 30 0 0\nmbus 3 6822226808017278563412430401040100000082016c01328c0106000000008c0114030000003516\n";
    let trial = Trial::new("run", &memory, script);
    for piece in [1, 2, 7, 64, 4096] {
        is_done(&rt, &trial.in_pieces(piece), output)?;
    }
    Ok(())
}
