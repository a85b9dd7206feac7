use if97_region1::Water;
use meter_parts::{Place, Sensor};
use pt_curve::Curve;
use pulse_integrator::Rate;
use sensor_pair::Pair;
use std::test::Fail;

fn rate(rf: u32, rr: u32) -> Result<Rate, Fail> {
    let water = Water::new(1_600).ok().ok_or("1600 kPa")?;
    let curve = Curve::nominal(Sensor::Pt500);
    let pair = Pair {
        flow: curve,
        ret: curve,
    };
    Ok(Rate::of(&water, &pair, Place::Return, 10, rf, rr))
}

// 1,000 litres from 60 to 50 °C, metered in the return at 1,600 kPa, carry 41,303,818,149 mJ, a pulse of 10 litres a
// hundredth of it
#[test]
fn pulses_carry_energy(rt: HostRuntime) -> Result<(), Fail> {
    let warm = rate(616_209_500, 596_985_625)?;
    assert!(rt; (warm.unit().e_mj - 413_038_181).abs() <= 1_000);
    let step = warm.add(100);
    assert_eq!(rt; step.faulty, 0);
    assert!(rt; step.b_mj <= 1_500_000);
    let left = (step.b_mj as i128) - 1_200_000;
    assert!(rt; (step.e_mj - 41_303_818_149).abs() <= left);
    Ok(())
}

#[test]
fn faulty_pulses_carry_none(rt: HostRuntime) -> Result<(), Fail> {
    let step = rate(0, 596_985_625)?.add(7);
    assert_eq!(rt; (step.e_mj, step.b_mj, step.faulty), (0, 0, 7));
    Ok(())
}

// whole temperatures of 50.009999 and 50 °C
#[test]
fn small_differences_carry_none(rt: HostRuntime) -> Result<(), Fail> {
    let step = rate(597_004_877, 596_985_625)?.add(7);
    assert_eq!(rt; (step.e_mj, step.b_mj, step.faulty), (0, 0, 0));
    Ok(())
}

#[test]
fn no_samples_carry_none(rt: HostRuntime) {
    let step = Rate::none(10).add(7);
    assert_eq!(rt; (step.e_mj, step.b_mj, step.faulty), (0, 0, 0));
}
