use slope_cert::{Incline, rises, slope};

// 10^9 times the slope over two temperatures, between two whole numbers that exact fractions gave
fn holds(range: Incline, floor: i128) -> bool {
    range.lo <= floor && floor < range.hi
}

#[test]
fn exact_slopes_lie_within(rt: HostRuntime) {
    // from 0 to 1 °C, from 0 °C to one nanodegree, and from one nanodegree below 1 °C to 1 °C
    let first = slope(1_100, 0);
    assert!(rt; holds(first, 4_212_810_861));
    assert!(rt; holds(first, 4_214_466_539));
    assert!(rt; holds(first, 4_211_203_472));
    // from 60 to 61 °C, and from 60 1/3 to 60 2/3 °C
    let middle = slope(1_600, 60);
    assert!(rt; holds(middle, 4_179_658_598));
    assert!(rt; holds(middle, 4_179_657_841));
    // from 179 to 180 °C, and from one microdegree below 180 °C to 180 °C
    let last = slope(4_000, 179);
    assert!(rt; holds(last, 4_390_379_740));
    assert!(rt; holds(last, 4_392_266_385));
}

// the heat capacity of water, between 4.0 and 4.6 kJ/(kg K)
fn is_water(range: Incline) -> bool {
    0 < range.lo && range.lo <= 4_600_000_000 && 4_000_000_000 <= range.hi
}

#[test]
fn enthalpy_rises_at_three_pressures(rt: HostRuntime) {
    for p_kpa in [1_100, 1_600, 4_000] {
        let mut slopes = [Incline { lo: 0, hi: 0 }; 180];
        for segment in 0..180u8 {
            let range = slope(p_kpa, segment);
            assert!(rt; is_water(range));
            slopes[usize::from(segment)] = range;
        }
        assert_eq!(rt; rises(&slopes), Ok(()));
    }
}

#[test]
fn first_segment_that_does_not_rise(rt: HostRuntime) {
    let mut slopes = [Incline { lo: 1, hi: 2 }; 180];
    assert_eq!(rt; rises(&slopes), Ok(()));
    slopes[179] = Incline { lo: -1, hi: 2 };
    assert_eq!(rt; rises(&slopes), Err(179));
    slopes[7] = Incline { lo: 0, hi: 1 };
    assert_eq!(rt; rises(&slopes), Err(7));
}
