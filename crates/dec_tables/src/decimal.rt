ghost use Rattle.std.specs.Prelude.{◌≡◌, ◌+◌, ◌*◌, ◌^◌, ◌≤◌, unsigned_abs, ℤ, pos, neg_ℤ, ◌≤ℤ◌, ◌+ℤ◌};
ghost use Rattle.number_model.specs.Fraction.{◌≤ℚ◌, ◌*ℚ◌, whole};
ghost use Rattle.number_model.specs.Enclosure.{Holds};
ghost use Rattle.water_model.specs.Decimal.{decimal};
ghost use Rattle.dec_tables.specs.Coefficients.{coefficient_of};

use super::division::{decimal_product, decimal_quotient};
use super::table::Term;
use interval_num::Enc;

// m * 10^exp10 * 2^up
fn magnitude<const S: u32>(m: u64, exp10: i8, up: u32) -> Enc<S>
    requires scale { S ≤ 60 }
    requires up { up ≤ 96 }
    requires size { decimal (pos m) exp10 *ℚ whole (2 ^ (S + up)) ≤ℚ whole (2 ^ 61) }
    ensures holds { Holds S result.lo result.hi (decimal (pos m) exp10 *ℚ whole (2 ^ up)) }
    ensures low { pos 0 ≤ℤ result.lo }
    ensures width { result.hi ≤ℤ (result.lo +ℤ pos 1) }
{
    let places = u32::from(exp10.unsigned_abs());
    if exp10 < 0 {
        let floor = decimal_quotient(m, places, S + up) as i128;
        Enc::of_ends(floor, floor + 1)
    } else {
        Enc::point(decimal_product(m, places, S + up) as i128)
    }
}

/// The coefficient of `t` times 2^up, at most 4 units wide.
pub fn enclose<const S: u32>(t: &Term, up: u32) -> Enc<S>
    requires scale { S ≤ 60 }
    requires up { up ≤ 96 }
    requires size { decimal (pos (unsigned_abs t.now.mantissa)) t.now.exp10 *ℚ whole (2 ^ (S + up)) ≤ℚ whole (2 ^ 61) }
    ensures holds { Holds S result.lo result.hi (coefficient_of t.now *ℚ whole (2 ^ up)) }
    ensures width { result.hi ≤ℤ (result.lo +ℤ pos 4) }
{
    let size: Enc<S> = magnitude(t.mantissa.unsigned_abs(), t.exp10, up);
    if t.mantissa < 0 {
        Enc::of_ends(-size.hi, -size.lo)
    } else {
        size
    }
}
