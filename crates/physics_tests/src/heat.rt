use heat_coeff::{coeff, litre_energy};
use if97_region1::Water;
use interval_num::Span;
use meter_parts::Place;
use std::test::Fail;

// water at 1,600 kPa between 60 and 50 °C, from the published sums in exact fractions: 4130.381814930..
// kJ/(m³ K) where the volume is measured in the return, and 4110.181600003.. where it is in the flow
#[test]
fn coefficients(rt: HostRuntime) -> Result<(), Fail> {
    let water = Water::new(1_600).ok().ok_or("1600 kPa")?;
    let k = coeff(&water, Place::Return, 60_000_000, 50_000_000);
    assert!(rt; k.lo <= 4_130_381_814 && k.hi >= 4_130_381_815);
    assert!(rt; k.lo >= 4_130_380_814 && k.hi <= 4_130_382_814);
    let k = coeff(&water, Place::Flow, 60_000_000, 50_000_000);
    assert!(rt; k.lo <= 4_110_181_600 && k.hi >= 4_110_181_601);
    assert!(rt; k.lo >= 4_110_180_600 && k.hi <= 4_110_182_600);
    Ok(())
}

// the cells of a Pt500 at 60 and 50 °C: 41303815.99.. to 41303820.30.. mJ/l, and the other way round
// -41101818.13.. to -41101813.86.. mJ/l
#[test]
fn litres(rt: HostRuntime) -> Result<(), Fail> {
    let water = Water::new(1_600).ok().ok_or("1600 kPa")?;
    let warm = Span {
        lo: 59_999_999_739,
        hi: 60_000_000_261,
    };
    let cold = Span {
        lo: 49_999_999_740,
        hi: 50_000_000_260,
    };
    let given = litre_energy(&water, Place::Return, warm, cold);
    assert!(rt; given.lo_mj <= 41_303_815 && given.hi_mj >= 41_303_821);
    assert!(rt; 6 * (given.hi_mj - given.lo_mj) <= 600 + 522 + 520);
    let taken = litre_energy(&water, Place::Return, cold, warm);
    assert!(rt; taken.lo_mj <= -41_101_819 && taken.hi_mj >= -41_101_813);
    assert!(rt; 6 * (taken.hi_mj - taken.lo_mj) <= 600 + 522 + 520);
    Ok(())
}
