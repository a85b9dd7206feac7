//! The commands that put one line.
use crate::shown::{ends_behind, line_of, number};
use crate::trial::{EMPTY, Trial, Trouble, attempt, is_done};
use meter_board::CallKind;
use meter_cli::Status;
use std::test::Fail;

// Words, and the line that is put.
//
// Calculators: from 60 to 50 °C a litre gives off 41303818.149.. mJ, and the limits of 10 °C are 0.8 %: 100 litres may
// show 4097338760.41.. to 4163424869.44.. mJ. These were computed apart from this code, with 60 decimals.
// Pairs: a Pt500 at 54 °C and at 50 °C where 53 and 50 °C are true: the limits of 3 °C are 2.895 and 3.105 °C.
const LINES: [(&str, &str); 25] = [
    ("temp 100 138505500", "100000000\n"),
    ("temp 100 100000000", "out\n"),
    ("temp 100 100000001", "2\n"),
    ("temp 100 168478299", "179999997\n"),
    ("temp 100 168478300", "out\n"),
    ("temp 500 596985625", "50000000\n"),
    ("temp 500 596985624", "49999999\n"),
    ("temp 1000 4294967295", "out\n"),
    (
        "bench calc 500 return 1600 3000000 616209500 596985625 100 4130381815",
        "pass\n",
    ),
    (
        "bench calc 500 return 1600 3000000 616209500 596985625 100 4163390000",
        "pass\n",
    ),
    (
        "bench calc 500 return 1600 3000000 616209500 596985625 100 4163460000",
        "high\n",
    ),
    (
        "bench calc 500 return 1600 3000000 616209500 596985625 100 4097370000",
        "pass\n",
    ),
    (
        "bench calc 500 return 1600 3000000 616209500 596985625 100 4097300000",
        "low\n",
    ),
    (
        "bench calc 500 return 1600 3000000 597004877 596985625 100 0",
        "small\n",
    ),
    (
        "bench calc 500 return 1600 3000000 0 596985625 100 0",
        "out\n",
    ),
    (
        "bench calc 500 return 1600 3000000 616209500 4294967295 100 0",
        "out\n",
    ),
    (
        "bench pair 500 3000000 53000000 50000000 604682105 596985625",
        "high\n",
    ),
    (
        "bench pair 500 3000000 54000000 50000000 604682105 596985625",
        "pass\n",
    ),
    (
        "bench pair 500 3000000 56000000 50000000 604682105 596985625",
        "low\n",
    ),
    (
        "bench pair 500 3000000 53000000 50000000 500000000 596985625",
        "out\n",
    ),
    ("bench flow 2 1500 15 100000 104000", "pass\n"),
    ("bench flow 2 1500 15 100000 104001", "high\n"),
    ("bench flow 2 1500 15 100000 95999", "low\n"),
    ("bench flow 2 1500 6 100000 105001", "high\n"),
    ("gen 1 1", "gen 1 1 0 0 0\n"),
];

#[test]
fn lines_are_put(rt: HostRuntime) -> Result<(), Fail> {
    for (words, output) in LINES {
        is_done(&rt, &Trial::new(words, &EMPTY, b""), output)?;
    }
    Ok(())
}

#[test]
fn a_line_that_fails_to_go_out_is_told(rt: HostRuntime) -> Result<(), Fail> {
    let fault = Trouble::Call {
        kind: CallKind::Put,
        number: 1,
    };
    let left = attempt(&rt, &Trial::new("temp 100 0", &EMPTY, b"").with(fault))?;
    assert_eq!(&rt; left.status, Status::Write);
    Ok(())
}

// Of the calculator above.
#[test]
fn a_calculator_at_its_limit_is_undecided(rt: HostRuntime) -> Result<(), Fail> {
    let words = "bench calc 500 return 1600 3000000 616209500 596985625 100 4163424869";
    let (lo, hi) = ends_behind(&rt, line_of(&rt, words)?.as_str(), "undecided")?;
    assert!(&rt; 41_302_618 <= lo && lo <= 41_303_818);
    assert!(&rt; 41_303_819 <= hi && hi <= lo + 1_200);
    Ok(())
}

// IAPWS-IF97 publishes v = 0.100215168e-2 m³/kg and h = 0.115331273e3 kJ/kg at 300 K and 3 MPa. The exact values,
// computed apart from this code with 60 decimals: their whole parts are 1002151679686 and 115331273021.
#[test]
fn water_is_as_published(rt: HostRuntime) -> Result<(), Fail> {
    let line = line_of(&rt, "water 3000 26850000")?;
    let mut words = line.as_str().split_whitespace();
    for (name, lo, hi, width) in [
        ("v", 1_002_151_679_686, 1_002_151_679_687, 269),
        ("h", 115_331_273_021, 115_331_273_022, 28),
    ] {
        assert_eq!(&rt; words.next(), Some(name));
        let low = number(words.next())?;
        let high = number(words.next())?;
        assert!(&rt; low <= lo && hi <= high, "{name}");
        assert!(&rt; high <= low.saturating_add(width), "{name}");
    }
    assert_eq!(&rt; words.next(), None);
    Ok(())
}

// At 1,600 kPa, with the volume measured in the return at 50 °C and the flow at 60 °C, the published sums
// in exact fractions give 4130.3818145.. kJ/(m³ K), computed apart from this code with 60 decimals.
#[test]
fn a_coefficient_is_as_published(rt: HostRuntime) -> Result<(), Fail> {
    let line = line_of(&rt, "k return 1600 60000000 50000000")?;
    let (lo, hi) = ends_behind(&rt, line.as_str(), "k")?;
    assert!(&rt; 4_100_000_000 <= lo && lo <= 4_130_381_814);
    assert!(&rt; 4_130_381_815 <= hi && hi <= 4_170_000_000 && hi - lo <= 2_000);
    assert!(&rt; hi <= lo + 52);
    Ok(())
}

// Of 2,000 events of seed 7 the pulses were 9,074, and the energy 29555922715982.16.. mJ, computed apart from this code.
#[test]
fn generated_events_are_metered(rt: HostRuntime) -> Result<(), Fail> {
    let line = line_of(&rt, "gen 7 2000")?;
    let again = line_of(&rt, "gen 7 2000")?;
    assert_eq!(&rt; line.as_str(), again.as_str());
    assert!(&rt; line.as_str().starts_with("gen 2000 2000 90740 "));
    let mut words = line.as_str().split_whitespace().skip(4);
    let energy = number(words.next())?;
    let bound = number(words.next())?;
    assert_eq!(&rt; words.next(), None);
    assert!(&rt; energy.abs_diff(29_555_922_715_982) <= bound.unsigned_abs());
    assert!(&rt; 0 <= bound && bound <= 90_740 * 2_000);
    Ok(())
}

// The 20,000 events of seed 7 are 90,258 pulses of 10 litres, counted apart from this code.
#[test]
fn generated_events_are_the_same_again(rt: HostRuntime) -> Result<(), Fail> {
    let line = line_of(&rt, "gen 7 20000")?;
    let again = line_of(&rt, "gen 7 20000")?;
    assert_eq!(&rt; line.as_str(), again.as_str());
    assert!(&rt; line.as_str().starts_with("gen 20000 20000 902580 "));
    Ok(())
}
