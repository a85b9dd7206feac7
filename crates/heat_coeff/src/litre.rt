ghost use Rattle.std.specs.Prelude.{◌+◌, ◌-◌, ◌*◌, ◌≤◌, pos, ◌-ℤ◌, ◌*ℤ◌, ◌≤ℤ◌};
ghost use Rattle.number_model.specs.Fraction.{Fraction};
ghost use Rattle.number_model.specs.Enclosure.{SpanHolds};
ghost use Rattle.number_model.specs.Rounding.{IsWithin};
ghost use Rattle.heat_model.specs.Heat.{LiesBetween, litre_energy};
ghost use Rattle.meter_parts.specs.Views.{place_view};

use crate::quotient::quotient_ends;
use crate::water_heat::{heat_given, metered_volume};
use if97_region1::{Variables, Water};
use interval_num::Span;
use meter_parts::Place;

/// 1,000 mJ/l for each kJ/m³, times 2^56 / 2^48 of the scales of the volume and the enthalpy.
const MILLIJOULES: u64 = 256_000;

/// Energy of one litre, in millijoules, lies from lo_mj to hi_mj.
#[derive(Clone, Copy, Debug, PartialEq, Eq)]
pub struct Litre {
    pub lo_mj: i128,
    pub hi_mj: i128,
}

/// The energy in millijoules that a litre gives off between flow and return, at each temperature of
/// the spans `f` and `r`, which are at most 3,000 nanodegrees wide: 1000 (h(flow) - h(return)) / v,
/// with v at the sensor where `place` is. The distance of the ends is at most a fifteenth of 241 and
/// twice the widths of both spans, and they are at most 1.4 * 10^9 from 0.
pub fn litre_energy(w: &Water, place: Place, f: Span, r: Span) -> Litre
    requires flow_narrow { f.hi - f.lo ≤ 3000 }
    requires return_narrow { r.hi - r.lo ≤ 3000 }
    ensures holds { (tf tr : Fraction) →
        SpanHolds f.lo f.hi tf → SpanHolds r.lo r.hi tr →
        LiesBetween result.lo_mj result.hi_mj (litre_energy w.now.p_kpa (place_view place) tf tr) }
    ensures ordered { result.lo_mj ≤ℤ result.hi_mj }
    ensures width { (pos 6 *ℤ (result.hi_mj -ℤ result.lo_mj)) ≤ℤ
        pos (600 + (f.hi - f.lo) + (r.hi - r.lo)) }
    ensures closer { (pos 15 *ℤ (result.hi_mj -ℤ result.lo_mj)) ≤ℤ
        pos (241 + 2 * ((f.hi - f.lo) + (r.hi - r.lo))) }
    ensures least { IsWithin 1400000000 result.lo_mj }
    ensures most { IsWithin 1400000000 result.hi_mj }
{
    let (f, r) = (Variables::over(f), Variables::over(r));
    let given = heat_given(w, &f, &r);
    let volume = metered_volume(w, place, &f, &r);
    let ends = quotient_ends(given, volume, MILLIJOULES, 1);
    Litre {
        lo_mj: ends.lo,
        hi_mj: ends.hi,
    }
}
