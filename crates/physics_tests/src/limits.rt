use bench_limits::{Judged, judge_flow, judge_pair, judge_point};
use heat_coeff::Litre;
use interval_num::Span;
use meter_parts::Sensor;
use pt_curve::Curve;
use std::test::Fail;

// the limits are 1.5 % where the difference is the least one
#[test]
fn calculators(rt: HostRuntime) {
    let undecided = Judged::Undecided {
        lo: 12_500_000,
        hi: 12_510_000,
    };
    for (hi_mj, energy_mj, judged) in [
        (12_510_000, 12_650_000, Judged::Pass),
        (12_510_000, 12_690_000, undecided),
        (12_510_000, 12_700_000, Judged::High),
        (12_510_000, 12_300_000, Judged::Low),
        (12_500_000, 12_687_500, Judged::Pass),
        (12_500_000, 12_687_501, Judged::High),
        (12_500_000, 12_312_500, Judged::Pass),
        (12_500_000, 12_312_499, Judged::Low),
    ] {
        let q = Litre {
            lo_mj: 12_500_000,
            hi_mj,
        };
        assert_eq!(rt; judge_point(3_000_000, 3_000_000, 1, energy_mj, q), judged);
    }
}

// a Pt500 at 54 °C and at 50 °C where 53 °C and 50 °C are true: the limits of 3 °C are 2.895 and 3.105 °C
#[test]
fn pairs(rt: HostRuntime) -> Result<(), Fail> {
    let curve = Curve::nominal(Sensor::Pt500);
    let f = curve.cell(604_682_105).ok_or("flow")?;
    let r = curve.cell(596_985_625).ok_or("return")?;
    assert_eq!(rt;
        judge_pair(3_000_000, 53_000_000, 50_000_000, f, r),
        Judged::High
    );
    let f = Span {
        lo: 53_104_999_500,
        hi: 53_105_000_500,
    };
    let r = Span {
        lo: 50_000_000_000,
        hi: 50_000_000_000,
    };
    assert_eq!(rt;
        judge_pair(3_000_000, 53_000_000, 50_000_000, f, r),
        Judged::Undecided {
            lo: 3_104_999_500,
            hi: 3_105_000_500
        }
    );
    Ok(())
}

#[test]
fn flow_sensors(rt: HostRuntime) {
    for (class, qp, q, reference, indicated, judged) in [
        (2, 1_500, 15, 100_000, 104_000, Judged::Pass),
        (2, 1_500, 15, 100_000, 104_001, Judged::High),
        (2, 1_500, 15, 100_000, 95_999, Judged::Low),
        (2, 1_500, 6, 100_000, 105_001, Judged::High),
        // 1 % and 0.01 % of 100, and 3 % and 0.05 % of 20
        (1, 1_500, 15, 100_000, 102_000, Judged::Pass),
        (1, 1_500, 15, 100_000, 102_001, Judged::High),
        (3, 1_500, 75, 100_000, 96_000, Judged::Pass),
        (3, 1_500, 75, 100_000, 95_999, Judged::Low),
    ] {
        assert_eq!(rt; judge_flow(class, qp, q, reference, indicated), judged);
    }
}
