use if97_region1::{Pressure, Water};
use interval_num::Span;
use std::test::Fail;

// the verification point of IAPWS-IF97 at 300 K and 3 MPa: v = 0.100215168e-2 m³/kg and
// h = 0.115331273e3 kJ/kg, each within half a unit of its last digit
#[test]
fn published_values(rt: HostRuntime) -> Result<(), Fail> {
    let water = Water::new(3_000).ok().ok_or("3 MPa")?;
    let t = Span {
        lo: 26_850_000_000,
        hi: 26_850_000_000,
    };
    let v = water.volume(t);
    // 0.001002151674 < 0.001002151675 <= v <= 0.001002151685 < 0.001002151686, times 2^56
    assert!(rt; v.lo >= 72_212_638_489_521 && v.lo <= 72_212_639_282_156);
    assert!(rt; v.hi >= 72_212_638_561_579 && v.hi <= 72_212_639_354_214);
    let h = water.enthalpy(t);
    // 115.3312715 < 115.3312725 <= h <= 115.3312735 < 115.3312745, times 2^48
    assert!(rt; h.lo >= 32_462_866_959_472_844 && h.lo <= 32_462_867_522_422_798);
    assert!(rt; h.hi >= 32_462_867_240_947_820 && h.hi <= 32_462_867_803_897_775);
    Ok(())
}

// At 3 MPa: volume_up[17] = -2 n x 4^17 of row 19 alone, and so on: each exact sum of the published rows in fractions,
// times the power of two of its table, rounded down and up.
#[test]
fn coefficients(rt: HostRuntime) -> Result<(), Fail> {
    let water = Water::new(3_000).ok().ok_or("3 MPa")?;
    let polys = water.polys();
    let volume_up = polys.volume_up.coef[17];
    assert!(rt; volume_up.lo <= 48_641_487_173 && volume_up.hi >= 48_641_487_174);
    let volume_down = polys.volume_down.coef[41];
    assert!(rt; volume_down.lo <= 361_182_671_869_164 && volume_down.hi >= 361_182_671_869_165);
    let heat_up = polys.heat_up.coef[0];
    assert!(rt; heat_up.lo <= 911_046_141_776_901 && heat_up.hi >= 911_046_141_776_902);
    let heat_down = polys.heat_down.coef[42];
    assert!(rt; heat_down.lo <= 3_201_647_175_631_242 && heat_down.hi >= 3_201_647_175_631_243);
    Ok(())
}

#[test]
fn pressures(rt: HostRuntime) {
    assert_eq!(rt; Water::new(1_099).err(), Some(Pressure { p_kpa: 1_099 }));
    assert_eq!(rt; Water::new(4_001).err(), Some(Pressure { p_kpa: 4_001 }));
    assert_eq!(rt; Water::new(1_100).ok().map(|w| w.p_kpa), Some(1_100));
    assert_eq!(rt; Water::new(4_000).ok().map(|w| w.p_kpa), Some(4_000));
}
