use interval_num::Span;
use meter_parts::{Cal, Sensor};
use pt_curve::Curve;

/// Resistances come in units of 10^-28 microohms.
const SCALE: i128 = 10_000_000_000_000_000_000_000_000_000;

#[test]
fn resistances_of_the_table(rt: HostRuntime) {
    let pt100 = Curve::nominal(Sensor::Pt100);
    let pt500 = Curve::nominal(Sensor::Pt500);
    for (t_ndeg, pt100_uohm, pt500_uohm) in [
        (0, 100_000_000, 500_000_000),
        (50_000_000_000, 119_397_125, 596_985_625),
        (60_000_000_000, 123_241_900, 616_209_500),
        (100_000_000_000, 138_505_500, 692_527_500),
        (180_000_000_000, 168_478_300, 842_391_500),
    ] {
        assert_eq!(rt; pt100.resist(t_ndeg), pt100_uohm * SCALE);
        assert_eq!(rt; pt500.resist(t_ndeg), pt500_uohm * SCALE);
    }
}

#[test]
fn whole_temperatures(rt: HostRuntime) {
    let pt100 = Curve::nominal(Sensor::Pt100);
    assert_eq!(rt; pt100.whole_temp(138_505_500), Some(100_000_000));
    assert_eq!(rt; pt100.whole_temp(100_000_000), None);
    assert_eq!(rt; pt100.whole_temp(100_000_001), Some(2));
    assert_eq!(rt; pt100.whole_temp(168_478_299), Some(179_999_997));
    assert_eq!(rt; pt100.whole_temp(168_478_300), None);
    let pt500 = Curve::nominal(Sensor::Pt500);
    assert_eq!(rt; pt500.whole_temp(596_985_625), Some(50_000_000));
    assert_eq!(rt; pt500.whole_temp(596_985_624), Some(49_999_999));
}

#[test]
fn cells(rt: HostRuntime) {
    let pt100 = Curve::nominal(Sensor::Pt100);
    assert_eq!(rt;
        pt100.cell(138_505_500),
        Some(Span {
            lo: 99_999_998_681,
            hi: 100_000_001_319
        })
    );
    assert_eq!(rt; pt100.cell(168_478_300), None);
    let pt1000 = Curve::nominal(Sensor::Pt1000);
    assert_eq!(rt;
        pt1000.cell(1_385_055_000),
        Some(Span {
            lo: 99_999_999_868,
            hi: 100_000_000_132
        })
    );
}

#[test]
fn calibrated_temperatures(rt: HostRuntime) {
    let cal = Cal {
        r0_uohm: 501_000_000,
        a_e10: 39_083_000,
        b_e10: 5_775,
    };
    let curve = Curve::calibrated(cal);
    assert_eq!(rt; curve.whole_temp(617_441_919), Some(60_000_000));
    assert_eq!(rt; curve.whole_temp(617_441_918), Some(59_999_999));
}
