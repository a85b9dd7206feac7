ghost use Rattle.std.specs.Prelude.{ℕ, ◌+◌, ◌-◌, ◌*◌, ◌^◌, ◌≤◌, pos, neg_ℤ, ◌-ℤ◌, ◌*ℤ◌, ◌≤ℤ◌};
ghost use Rattle.number_model.specs.Fraction.{Fraction, ◌-ℚ◌};
ghost use Rattle.number_model.specs.Enclosure.{Holds, SpanHolds};
ghost use Rattle.water_model.specs.Water.{volume, enthalpy};
ghost use Rattle.heat_model.specs.Heat.{metered_at};
ghost use Rattle.meter_parts.specs.Views.{place_view};

use if97_region1::{Variables, Water};
use interval_num::Enc;
use meter_parts::Place;

/// h(flow) - h(return), in kJ/kg.
pub(crate) fn heat_given(w: &Water, f: &Variables, r: &Variables) -> Enc<48>
    requires flow_narrow { f.now.span.hi - f.now.span.lo ≤ 3000 }
    requires return_narrow { r.now.span.hi - r.now.span.lo ≤ 3000 }
    ensures holds { (tf tr : Fraction) →
        SpanHolds f.now.span.lo f.now.span.hi tf → SpanHolds r.now.span.lo r.now.span.hi tr →
        Holds 48 result.lo result.hi (enthalpy w.now.p_kpa tf -ℚ enthalpy w.now.p_kpa tr) }
    ensures least { neg_ℤ (pos (1200 * 2 ^ 48)) ≤ℤ result.lo }
    ensures most { result.hi ≤ℤ pos (1200 * 2 ^ 48) }
    ensures width { ((result.hi -ℤ result.lo) *ℤ pos (10 ^ 9)) ≤ℤ
        pos ((74 + 116 * ((f.now.span.hi - f.now.span.lo) + (r.now.span.hi - r.now.span.lo))) * 2 ^ 48) }
{
    w.enthalpy_at(f).sub(w.enthalpy_at(r))
}

/// v where the flow sensor sits, in m³/kg.
pub(crate) fn metered_volume(w: &Water, place: Place, f: &Variables, r: &Variables) -> Enc<56>
    requires flow_narrow { f.now.span.hi - f.now.span.lo ≤ 3000 }
    requires return_narrow { r.now.span.hi - r.now.span.lo ≤ 3000 }
    ensures holds { (tf tr : Fraction) →
        SpanHolds f.now.span.lo f.now.span.hi tf → SpanHolds r.now.span.lo r.now.span.hi tr →
        Holds 56 result.lo result.hi (volume w.now.p_kpa (metered_at (place_view place) tf tr)) }
    ensures least { pos (9 * 2 ^ 56) ≤ℤ (result.lo *ℤ pos 10000) }
    ensures width { (d : ℕ) → f.now.span.hi - f.now.span.lo ≤ d → r.now.span.hi - r.now.span.lo ≤ d →
        ((result.hi -ℤ result.lo) *ℤ pos (10 ^ 15)) ≤ℤ pos ((268 + 3 * d) * 2 ^ 56) }
{
    match place {
        Place::Flow => w.volume_at(f),
        Place::Return => w.volume_at(r),
    }
}
