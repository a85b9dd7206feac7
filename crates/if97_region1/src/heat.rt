ghost use Rattle.std.specs.Prelude.{◌-◌};
ghost use Rattle.number_model.specs.Fraction.{Fraction};
ghost use Rattle.number_model.specs.Enclosure.{Holds, SpanHolds};
ghost use Rattle.water_model.specs.Water.{x_of, y_of, enthalpy};
ghost use Rattle.enclosure_sizes.specs.Size.{SizedBy};
ghost use Rattle.region1_algebra.specs.TableForms.{table_heat};
ghost use Rattle.if97_region1.specs.Sizes.{heat_size, enthalpy_size};

use crate::constants::factor_of_heat;
use crate::variables::{inverse, quarter};
use crate::water::Water;
use interval_num::Enc;
use region1_terms::Variables;

// g_tau
fn heat(w: &Water, v: &Variables) -> Enc<48>
    ensures holds { (c : Fraction) →
        SpanHolds v.now.span.lo v.now.span.hi c →
        Holds 48 result.lo result.hi (table_heat (x_of w.now.p_kpa) (y_of c)) }
    ensures sized { SizedBy heat_size (v.now.span.hi - v.now.span.lo) result.lo result.hi }
{
    let t = w.polys();
    let up = t.heat_up.horner(quarter(v));
    let down = t.heat_down.horner(inverse(v));
    up.add(down.scale_to())
}

/// h = 1386 R * g_tau, in kJ/kg.
pub(crate) fn enthalpy_over(w: &Water, v: &Variables) -> Enc<48>
    ensures holds { (c : Fraction) →
        SpanHolds v.now.span.lo v.now.span.hi c → Holds 48 result.lo result.hi (enthalpy w.now.p_kpa c) }
    ensures sized { SizedBy enthalpy_size (v.now.span.hi - v.now.span.lo) result.lo result.hi }
{
    heat(w, v).mul(factor_of_heat())
}
