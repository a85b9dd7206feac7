ghost use Rattle.std.specs.Prelude.{◌≡◌, ◌+◌, ◌^◌, ◌≤◌, pos, ◌+ℤ◌, ◌*ℤ◌, ◌≤ℤ◌};
ghost use Rattle.std.specs.Int.{int_min};
ghost use Rattle.number_model.specs.Rounding.{IsWithin, floor_div, ceil_div};
ghost use Rattle.interval_num.specs.Ends.{least_product, greatest_product};
ghost use Rattle.dec_tables.specs.Polynomials.{magnitude};

use interval_num::Enc;

// c + z * h, with the ends of `Enc::add` and `Enc::mul`: as z is not negative, the sign of an end of h
// says by which end of z it is multiplied
pub(crate) fn step<const S: u32>(c: Enc<S>, z: Enc<S>, h: Enc<S>) -> Enc<S>
    requires low { pos 0 ≤ℤ z.lo }
    requires high { z.hi ≤ℤ pos (2 ^ S) }
    requires size { magnitude c + magnitude h ≤ 2 ^ 61 }
    ensures lo { result.lo ≡ c.entry.lo +ℤ
        floor_div (least_product z.entry.lo z.entry.hi h.entry.lo h.entry.hi) (2 ^ S) }
    ensures hi { result.hi ≡ c.entry.hi +ℤ
        ceil_div (greatest_product z.entry.lo z.entry.hi h.entry.lo h.entry.hi) (2 ^ S) }
    ensures size { magnitude result ≤ magnitude c.entry + magnitude h.entry }
{
    Enc::of_ends(
        c.lo + least(z.lo, z.hi, h.lo, S),
        c.hi - least(z.lo, z.hi, -h.hi, S),
    )
}

// the least product of h and a number from l to u, over 2^s, rounded down
fn least(l: i128, u: i128, h: i128, s: u32) -> i128
    requires low { pos 0 ≤ℤ l }
    requires ordered { l ≤ℤ u }
    requires high { u ≤ℤ pos (2 ^ 60) }
    requires range { IsWithin (2 ^ 61) h }
    requires scale { s ≤ 60 }
    ensures { result ≡ floor_div (int_min (l *ℤ h) (u *ℤ h)) (2 ^ s) }
{
    if h < 0 { (u * h) >> s } else { (l * h) >> s }
}
