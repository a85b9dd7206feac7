ghost use Rattle.std.specs.Prelude.{◌≡◌, ℕ, ◌^◌, pos, ◌*ℤ◌, ◌≤ℤ◌};
ghost use Rattle.std.specs.Ordering.{int_cmp};
ghost use Rattle.number_model.specs.Fraction.{Fraction, IsRatio, IsOrder};
ghost use Rattle.number_model.specs.Rounding.{IsWithin};

use std::cmp::Ordering;

/// The fraction `num / den`.
#[derive(Clone, Copy, Debug, PartialEq, Eq)]
pub struct Ratio {
    pub num: i128,
    pub den: i128,
}

impl Ratio {
    /// The order of the two fractions, by their cross products. Numerators and denominators are at
    /// most 2^62 in magnitude, and denominators are positive.
    pub fn compare(self, o: Ratio) -> Ordering
        requires num { IsWithin (2 ^ 62) self.num }
        requires positive { pos 1 ≤ℤ self.den }
        requires den { self.den ≤ℤ pos (2 ^ 62) }
        requires o_num { IsWithin (2 ^ 62) o.num }
        requires o_positive { pos 1 ≤ℤ o.den }
        requires o_den { o.den ≤ℤ pos (2 ^ 62) }
        ensures crossed { result ≡ int_cmp (self.num *ℤ o.den) (o.num *ℤ self.den) }
        ensures order { (x y : Fraction) →
            IsRatio self.num self.den x → IsRatio o.num o.den y → IsOrder result x y }
    {
        (self.num * o.den).cmp(&(o.num * self.den))
    }
}
