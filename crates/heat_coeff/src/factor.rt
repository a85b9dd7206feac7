ghost use Rattle.std.specs.Prelude.{◌≡◌, ◌+◌, ◌-◌, ◌*◌, ◌^◌, ◌≤◌, pos, ◌-ℤ◌, ◌*ℤ◌, ◌≤ℤ◌};
ghost use Rattle.number_model.specs.Fraction.{◌*ℚ◌, whole};
ghost use Rattle.platinum_model.specs.Element.{max_udeg, microdegrees};
ghost use Rattle.heat_model.specs.Heat.{LiesBetween, heat_coefficient};
ghost use Rattle.meter_parts.specs.Views.{place_view};

use crate::quotient::quotient_ends;
use crate::water_heat::{heat_given, metered_volume};
use if97_region1::{Variables, Water};
use interval_num::Span;
use meter_parts::Place;

/// 10^6 microdegrees a degree and 10^6 units a kJ/(m³ K), times 2^56 / 2^48 of the scales of the
/// volume and the enthalpy.
const MILLIONTHS: u64 = 256_000_000_000_000;

const NDEG_PER_UDEG: u64 = 1_000;

/// The heat coefficient in units of 10^-6 kJ/(m³ K) lies from lo to hi.
#[derive(Clone, Copy, Debug, PartialEq, Eq)]
pub struct Factor {
    pub lo: i128,
    pub hi: i128,
}

/// The heat coefficient k of EN 1434-1 at these temperatures in microdegrees Celsius, where the flow is
/// at least 10,000 warmer than the return and at most 180 °C: (h(flow) - h(return)) / (v (flow - return)).
/// The distance of the ends, less 2, times the difference of the temperatures is at most 5 * 10^8.
pub fn coeff(w: &Water, place: Place, tf_udeg: u32, tr_udeg: u32) -> Factor
    requires apart { tr_udeg + 10000 ≤ tf_udeg }
    requires range { tf_udeg ≤ max_udeg }
    ensures holds { LiesBetween result.lo result.hi
        (whole 1000000 *ℚ heat_coefficient w.now.p_kpa (place_view place)
        (microdegrees tf_udeg) (microdegrees tr_udeg)) }
    ensures ordered { result.lo ≤ℤ result.hi }
    ensures width { ((result.hi -ℤ result.lo -ℤ pos 1000) *ℤ pos (tf_udeg - tr_udeg)) ≤ℤ pos (10 ^ 10) }
    ensures closer { ((result.hi -ℤ result.lo -ℤ pos 2) *ℤ pos (tf_udeg - tr_udeg)) ≤ℤ pos (5 * 10 ^ 8) }
{
    let f = point(tf_udeg);
    let r = point(tr_udeg);
    let given = heat_given(w, &f, &r);
    let volume = metered_volume(w, place, &f, &r);
    let ends = quotient_ends(given, volume, MILLIONTHS, tf_udeg - tr_udeg);
    Factor {
        lo: ends.lo,
        hi: ends.hi,
    }
}

/// The variables at the one temperature `t_udeg`.
fn point(t_udeg: u32) -> Variables
    requires { t_udeg ≤ max_udeg }
    ensures lo { result.span.lo ≡ t_udeg * 1000 }
    ensures hi { result.span.hi ≡ t_udeg * 1000 }
{
    let t_ndeg = t_udeg as u64 * NDEG_PER_UDEG;
    Variables::over(Span {
        lo: t_ndeg,
        hi: t_ndeg,
    })
}
