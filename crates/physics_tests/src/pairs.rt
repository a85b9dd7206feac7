use interval_num::Span;
use meter_parts::Sensor;
use pt_curve::Curve;
use sensor_pair::{Pair, Verdict};

#[test]
fn verdicts(rt: HostRuntime) {
    let curve = Curve::nominal(Sensor::Pt500);
    let pair = Pair {
        flow: curve,
        ret: curve,
    };
    let counts = Verdict::Counts {
        f: Span {
            lo: 59_999_999_739,
            hi: 60_000_000_261,
        },
        r: Span {
            lo: 49_999_999_740,
            hi: 50_000_000_260,
        },
    };
    assert_eq!(rt; pair.judge(616_209_500, 596_985_625), counts);
    assert_eq!(rt; pair.judge(0, 596_985_625), Verdict::FlowOut);
    assert_eq!(rt; pair.judge(616_209_500, 0), Verdict::ReturnOut);
    assert_eq!(rt; pair.judge(0, 0), Verdict::BothOut);
    assert_eq!(rt; pair.judge(597_004_877, 596_985_625), Verdict::Small);
    assert_ne!(rt; pair.judge(597_004_878, 596_985_625), Verdict::Small);
}

#[test]
fn pair_of_the_sensors(rt: HostRuntime) {
    let curve = Curve::nominal(Sensor::Pt1000);
    assert_eq!(rt;
        Pair::of(Sensor::Pt1000, None),
        Pair {
            flow: curve,
            ret: curve
        }
    );
}
