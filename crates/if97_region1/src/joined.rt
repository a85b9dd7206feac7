ghost use Rattle.std.specs.Prelude.{◌≡◌, ℕ, suc, ◌+◌, ◌-◌, ◌*◌, ◌^◌, ◌≤◌, pos, ◌+ℤ◌, ◌≤ℤ◌, slice_get, Some};
ghost use Rattle.number_model.specs.Fraction.{Fraction, ◌*ℚ◌};
ghost use Rattle.number_model.specs.Enclosure.{Holds, SpanHolds};
ghost use Rattle.water_model.specs.Water.{x_of, y_of, volume};
ghost use Rattle.enclosure_sizes.specs.Size.{SizedBy};
ghost use Rattle.interval_num.specs.declared.enc.Enc.{Enc};
ghost use Rattle.dec_tables.specs.declared.part.Part.TheVariants.{VolumeUp, VolumeDown};
ghost use Rattle.region1_algebra.specs.TableForms.{linear_of, constant_of, higher_of, falling_of, table_volume};
ghost use Rattle.region1_algebra.specs.Forms.{u_of, r_of};
ghost use Rattle.if97_region1.specs.Collapsed.{HoldsPart};
ghost use Rattle.if97_region1.specs.Sizes.{quarter_size, inverse_size, linear_size, constant_width, constant_size, higher_size, falling_size, over_tau_size, by_y_over_tau_size, joined_size, volume_size};

use crate::constants::{factor_of_volume, offset_of_y};
use crate::variables::{inverse, quarter};
use crate::water::Water;
use dec_tables::Poly;
use interval_num::Enc;
use region1_terms::{TauVariables, Variables};

// c1, the coefficient of y, from that of y / 4
fn linear(up: &Poly<18, 48>) -> Enc<56>
    requires { (x : Fraction) × HoldsPart 48 VolumeUp x up.now.coef }
    ensures holds { (x : Fraction) → HoldsPart 48 VolumeUp x up.now.coef → Holds 56 result.lo result.hi (linear_of x) }
    ensures sized { (d : ℕ) → SizedBy linear_size d result.lo result.hi }
{
    let quarter: Enc<50> = up.coef[1].relabel();
    quarter.scale_to()
}

// c0 - 1.222 c1
fn constant(up: &Poly<18, 48>, linear: Enc<56>) -> Enc<56>
    requires up { (x : Fraction) × HoldsPart 48 VolumeUp x up.now.coef }
    requires linear { (d : ℕ) → SizedBy linear_size d linear.lo linear.hi }
    ensures holds { (x : Fraction) → HoldsPart 48 VolumeUp x up.now.coef → Holds 56 linear.lo linear.hi (linear_of x) →
        Holds 56 result.lo result.hi (constant_of x) }
    ensures width { result.hi ≤ℤ (result.lo +ℤ pos constant_width) }
{
    let first: Enc<56> = up.coef[0].scale_to();
    first.sub(offset_of_y().mul(linear))
}

// the coefficients from y^2 on
fn tail(up: &Poly<18, 48>) -> Poly<16, 48>
    ensures { (k : ℕ) (e : Enc 48) →
        slice_get result.coef k ≡ Some e → slice_get up.now.coef (suc (suc k)) ≡ Some e }
{
    let mut coef = [Enc::point(0); 16];
    for k in 0..16 {
        coef[k] = up.coef[k + 2];
    }
    Poly { coef }
}

// the terms from y^2 on, divided by y
fn higher(up: &Poly<18, 48>, quarter: Enc<48>) -> Enc<56>
    requires up { (x : Fraction) × HoldsPart 48 VolumeUp x up.now.coef }
    requires low { pos 0 ≤ℤ quarter.lo }
    requires high { quarter.hi ≤ℤ pos (2 ^ 48) }
    requires sized { (d : ℕ) × SizedBy quarter_size d quarter.lo quarter.hi }
    ensures holds { (x q : Fraction) → HoldsPart 48 VolumeUp x up.now.coef → Holds 48 quarter.lo quarter.hi q →
        Holds 56 result.lo result.hi (higher_of x q) }
    ensures sized { (d : ℕ) → SizedBy quarter_size d quarter.lo quarter.hi → SizedBy higher_size d result.lo result.hi }
{
    let fourfold = tail(up).horner(quarter).mul(quarter);
    let whole: Enc<50> = fourfold.relabel();
    whole.scale_to()
}

// what stands at 1 / tau: c0 - 1.222 c1 and the terms in 1 / y
fn falling(constant: Enc<56>, down: &Poly<42, 40>, inverse: Enc<40>) -> Enc<56>
    requires down { (x : Fraction) × HoldsPart 40 VolumeDown x down.now.coef }
    requires low { pos 0 ≤ℤ inverse.lo }
    requires high { inverse.hi ≤ℤ pos (2 ^ 40) }
    requires sized { (d : ℕ) × SizedBy inverse_size d inverse.lo inverse.hi }
    requires constant { (d : ℕ) → SizedBy constant_size d constant.lo constant.hi }
    ensures holds { (x z : Fraction) → HoldsPart 40 VolumeDown x down.now.coef →
        Holds 56 constant.lo constant.hi (constant_of x) → Holds 40 inverse.lo inverse.hi z →
        Holds 56 result.lo result.hi (falling_of x z) }
    ensures sized { (d : ℕ) → SizedBy inverse_size d inverse.lo inverse.hi → SizedBy falling_size d result.lo result.hi }
{
    constant.add(down.horner(inverse).scale_to())
}

// D / tau
fn over_tau(down: Enc<56>, v: &TauVariables) -> Enc<56>
    requires { SizedBy falling_size (v.now.span.hi - v.now.span.lo) down.lo down.hi }
    ensures holds { (c d : Fraction) →
        SpanHolds v.now.span.lo v.now.span.hi c → Holds 56 down.lo down.hi d → Holds 56 result.lo result.hi (d *ℚ u_of c) }
    ensures sized { SizedBy over_tau_size (v.now.span.hi - v.now.span.lo) result.lo result.hi }
{
    down.mul(v.inverse_tau)
}

// U y / tau
fn by_y_over_tau(up: Enc<56>, v: &TauVariables) -> Enc<56>
    requires { SizedBy higher_size (v.now.span.hi - v.now.span.lo) up.lo up.hi }
    ensures holds { (c d : Fraction) →
        SpanHolds v.now.span.lo v.now.span.hi c → Holds 56 up.lo up.hi d → Holds 56 result.lo result.hi (d *ℚ r_of c) }
    ensures sized { SizedBy by_y_over_tau_size (v.now.span.hi - v.now.span.lo) result.lo result.hi }
{
    up.mul(v.y_over_tau)
}

// g_pi / tau = c1 + D / tau + U y / tau: with y / tau as one ratio, both factors fall or rise together
// with the temperature, and the product stays narrow
fn joined(w: &Water, v: &Variables) -> Enc<56>
    ensures holds { (c : Fraction) →
        SpanHolds v.now.span.lo v.now.span.hi c →
        Holds 56 result.lo result.hi (table_volume (x_of w.now.p_kpa) (y_of c) (u_of c) (r_of c)) }
    ensures sized { SizedBy joined_size (v.now.span.hi - v.now.span.lo) result.lo result.hi }
{
    let t = w.polys();
    let linear = linear(&t.volume_up);
    let down = falling(constant(&t.volume_up, linear), &t.volume_down, inverse(v));
    let up = higher(&t.volume_up, quarter(v));
    let tau = TauVariables::over(v.span);
    linear
        .add(over_tau(down, &tau))
        .add(by_y_over_tau(up, &tau))
}

/// v = 1386 R / 16530 * g_pi / tau, in m³/kg.
pub(crate) fn volume_over(w: &Water, v: &Variables) -> Enc<56>
    ensures holds { (c : Fraction) →
        SpanHolds v.now.span.lo v.now.span.hi c → Holds 56 result.lo result.hi (volume w.now.p_kpa c) }
    ensures sized { SizedBy volume_size (v.now.span.hi - v.now.span.lo) result.lo result.hi }
{
    joined(w, v).mul(factor_of_volume())
}
