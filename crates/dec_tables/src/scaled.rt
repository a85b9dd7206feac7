ghost use Rattle.std.specs.Prelude.{◌^◌, ◌≤◌, IsTrue, pos, ◌≤ℤ◌};
ghost use Rattle.number_model.specs.Fraction.{Fraction, ◌*ℚ◌, power, whole};
ghost use Rattle.number_model.specs.Enclosure.{Holds};
ghost use Rattle.enclosure_sizes.specs.Size.{SizedBy};
ghost use Rattle.dec_tables.specs.Coefficients.{coefficient_of};
ghost use Rattle.dec_tables.specs.Sizes.{x_size, x_power_size, scaled_fits, scaled_size};

use crate::decimal::enclose;
use crate::table::Term;
use interval_num::Enc;

// (x / 8)^n
pub(crate) fn x_power(x: Enc<56>, n: u32) -> Enc<56>
    requires low { pos 0 ≤ℤ x.lo }
    requires most { n ≤ 64 }
    requires size { SizedBy x_size 0 x.lo x.hi }
    ensures holds { (v : Fraction) → Holds 56 x.lo x.hi v → Holds 56 result.lo result.hi (power v n) }
    ensures size { SizedBy (x_power_size n) 0 result.lo result.hi }
{
    if n == 0 {
        Enc::point(1 << 56)
    } else {
        x.powi(n)
    }
}

// the coefficient of t times 2^up times a power of x, taken at the scale 2^F
pub(crate) fn scaled<const F: u32, const S: u32>(t: &Term, up: u32, power: Enc<F>) -> Enc<S>
    requires scale { F ≤ 60 }
    requires power { SizedBy (x_power_size t.now.i) 0 power.lo power.hi }
    requires fits { IsTrue (scaled_fits F S up t.now) }
    ensures holds { (v : Fraction) →
        Holds F power.entry.lo power.entry.hi v →
        Holds S result.lo result.hi (coefficient_of t.now *ℚ whole (2 ^ up) *ℚ v) }
    ensures size { SizedBy (scaled_size F S up t.now) 0 result.lo result.hi }
{
    let coefficient: Enc<F> = enclose(t, up);
    coefficient.mul(power).scale_to()
}
