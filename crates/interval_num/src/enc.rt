ghost use Rattle.std.specs.Prelude.{◌≡◌, ℕ, ◌-◌, ◌*◌, ◌^◌, ◌≤◌, unsigned_abs, ℤ, pos, neg_ℤ, ◌+ℤ◌, ◌-ℤ◌, ◌*ℤ◌, ◌≤ℤ◌};
ghost use Rattle.std.proofs.lemmas.Nat.{pow_pos};
ghost use Rattle.number_model.specs.Fraction.{Fraction, IsRatio, ◌+ℚ◌, ◌-ℚ◌, ◌*ℚ◌, ◌/ℚ◌, power, times_ℚ};
ghost use Rattle.number_model.specs.Enclosure.{scaled, Holds};
ghost use Rattle.number_model.specs.Rounding.{IsWithin, floor_div, ceil_div};
ghost use Rattle.interval_num.specs.Ends.{IsPower, ProductsWithin, QuotientsWithin, least_product, greatest_product, least_quotient, greatest_quotient, quotient_floor, quotient_ceil};

use crate::powers::{power_ceil, power_floor};
use crate::products::{product_ceil, product_floor};
use crate::quotients::{ceil_ratio, floor_ratio, greatest_ratio, least_ratio};
use crate::rounding::{scale_ceil, scale_floor};

/// Every fraction x with `lo <= x * 2^S <= hi`. The mantissas `lo` and `hi` are at most 2^62 in
/// magnitude, and S is at most 60.
#[derive(Clone, Copy, Debug, PartialEq, Eq)]
pub struct Enc<const S: u32> {
    pub lo: i128,
    pub hi: i128,
    pub ghost ordered: { lo ≤ℤ hi },
    pub ghost low: { neg_ℤ (pos (2 ^ 62)) ≤ℤ lo },
    pub ghost high: { hi ≤ℤ pos (2 ^ 62) },
    pub ghost scale: { S ≤ 60 },
}

impl<const S: u32> Enc<S> {
    /// The one number `m / 2^S`.
    pub fn point(m: i128) -> Enc<S>
        requires range { IsWithin (2 ^ 62) m }
        requires scale { S ≤ 60 }
        ensures lo { result.lo ≡ m }
        ensures hi { result.hi ≡ m }
        ensures holds { Holds S result.lo result.hi (scaled S m) }
    {
        Enc { lo: m, hi: m }
    }

    /// The numbers from `lo / 2^S` to `hi / 2^S`.
    pub fn of_ends(lo: i128, hi: i128) -> Enc<S>
        requires ordered { lo ≤ℤ hi }
        requires low { neg_ℤ (pos (2 ^ 62)) ≤ℤ lo }
        requires high { hi ≤ℤ pos (2 ^ 62) }
        requires scale { S ≤ 60 }
        ensures lo { result.lo ≡ lo }
        ensures hi { result.hi ≡ hi }
        ensures holds { (x : Fraction) → Holds S lo hi x → Holds S result.lo result.hi x }
    {
        Enc { lo, hi }
    }

    /// The fraction `a / b`, rounded outwards.
    pub fn of_ratio(a: i128, b: i128) -> Enc<S>
        requires num { IsWithin (2 ^ 62) a }
        requires positive { pos 1 ≤ℤ b }
        requires den { b ≤ℤ pos (2 ^ 62) }
        requires size { unsigned_abs a * 2 ^ S ≤ unsigned_abs b * 2 ^ 61 }
        requires scale { S ≤ 60 }
        ensures lo { result.lo ≡ quotient_floor S a b }
        ensures hi { result.hi ≡ quotient_ceil S a b }
        ensures holds { (x : Fraction) → IsRatio a b x → Holds S result.lo result.hi x }
    {
        Enc {
            lo: floor_ratio(a, b, S),
            hi: ceil_ratio(a, b, S),
        }
    }

    /// All sums of a number of `self` and one of `o`; the ends are exact.
    pub fn add(self, o: Enc<S>) -> Enc<S>
        requires low { neg_ℤ (pos (2 ^ 62)) ≤ℤ (self.lo +ℤ o.lo) }
        requires high { (self.hi +ℤ o.hi) ≤ℤ pos (2 ^ 62) }
        ensures lo { result.lo ≡ self.entry.lo +ℤ o.entry.lo }
        ensures hi { result.hi ≡ self.entry.hi +ℤ o.entry.hi }
        ensures holds { (x y : Fraction) →
            Holds S self.entry.lo self.entry.hi x → Holds S o.entry.lo o.entry.hi y →
            Holds S result.lo result.hi (x +ℚ y) }
    {
        Enc {
            lo: self.lo + o.lo,
            hi: self.hi + o.hi,
        }
    }

    /// All differences of a number of `self` and one of `o`; the ends are exact.
    pub fn sub(self, o: Enc<S>) -> Enc<S>
        requires low { neg_ℤ (pos (2 ^ 62)) ≤ℤ (self.lo -ℤ o.hi) }
        requires high { (self.hi -ℤ o.lo) ≤ℤ pos (2 ^ 62) }
        ensures lo { result.lo ≡ self.entry.lo -ℤ o.entry.hi }
        ensures hi { result.hi ≡ self.entry.hi -ℤ o.entry.lo }
        ensures holds { (x y : Fraction) →
            Holds S self.entry.lo self.entry.hi x → Holds S o.entry.lo o.entry.hi y →
            Holds S result.lo result.hi (x -ℚ y) }
    {
        Enc {
            lo: self.lo - o.hi,
            hi: self.hi - o.lo,
        }
    }

    /// All products of a number of `self` and one of `o`, rounded outwards.
    pub fn mul(self, o: Enc<S>) -> Enc<S>
        requires range { ProductsWithin ((2 ^ 62 - 1) * 2 ^ S) self.lo self.hi o.lo o.hi }
        ensures lo { result.lo ≡
            floor_div (least_product self.entry.lo self.entry.hi o.entry.lo o.entry.hi) (2 ^ S) }
        ensures hi { result.hi ≡
            ceil_div (greatest_product self.entry.lo self.entry.hi o.entry.lo o.entry.hi) (2 ^ S) }
        ensures holds { (x y : Fraction) →
            Holds S self.entry.lo self.entry.hi x → Holds S o.entry.lo o.entry.hi y →
            Holds S result.lo result.hi (x *ℚ y) }
    {
        Enc {
            lo: product_floor(self.lo, self.hi, o.lo, o.hi, S),
            hi: product_ceil(self.lo, self.hi, o.lo, o.hi, S),
        }
    }

    /// All quotients of a number of `self` by one of `o`, which lies above 0, rounded outwards.
    pub fn div(self, o: Enc<S>) -> Enc<S>
        requires positive { pos 1 ≤ℤ o.lo }
        requires range { QuotientsWithin (2 ^ 62 - 1) S self.lo self.hi o.lo o.hi }
        ensures lo { result.lo ≡
            least_quotient S self.entry.lo self.entry.hi o.entry.lo o.entry.hi }
        ensures hi { result.hi ≡
            greatest_quotient S self.entry.lo self.entry.hi o.entry.lo o.entry.hi }
        ensures holds { (x y : Fraction) →
            Holds S self.entry.lo self.entry.hi x → Holds S o.entry.lo o.entry.hi y →
            Holds S result.lo result.hi (x /ℚ y) }
    {
        Enc {
            lo: least_ratio(self.lo, o.lo, o.hi, S),
            hi: greatest_ratio(self.hi, o.lo, o.hi, S),
        }
    }

    /// The powers `x^n` of numbers from 0 to 1, for n from 1 to 64. Each end is rounded outwards, by
    /// at most `n` units of `2^-S`.
    pub fn powi(self, n: u32) -> Enc<S>
        requires exponent { 1 ≤ n }
        requires most { n ≤ 64 }
        requires low { pos 0 ≤ℤ self.lo }
        requires high { self.hi ≤ℤ pos (2 ^ S) }
        ensures ends { IsPower S n self.entry.lo self.entry.hi result.lo result.hi }
        ensures width { (result.hi -ℤ result.lo) ≤ℤ
            (pos n *ℤ ((self.entry.hi -ℤ self.entry.lo) +ℤ pos 2)) }
        ensures holds { (x : Fraction) →
            Holds S self.entry.lo self.entry.hi x → Holds S result.lo result.hi (power x n) }
    {
        Enc {
            lo: power_floor(self.lo as u128, n, S) as i128,
            hi: power_ceil(self.hi as u128, n, S) as i128,
        }
    }

    /// The same numbers at the scale `2^T`. A coarser scale rounds the ends outwards; a finer one
    /// keeps them exactly.
    pub fn scale_to<const T: u32>(self) -> Enc<T>
        requires scale { T ≤ 60 }
        requires low { neg_ℤ (pos (2 ^ 62 - 1)) ≤ℤ floor_div (self.lo *ℤ pos (2 ^ T)) (2 ^ S) }
        requires high { ceil_div (self.hi *ℤ pos (2 ^ T)) (2 ^ S) ≤ℤ pos (2 ^ 62 - 1) }
        ensures lo { result.lo ≡ floor_div (self.entry.lo *ℤ pos (2 ^ T)) (2 ^ S) }
        ensures hi { result.hi ≡ ceil_div (self.entry.hi *ℤ pos (2 ^ T)) (2 ^ S) }
        ensures holds { (x : Fraction) →
            Holds S self.entry.lo self.entry.hi x → Holds T result.lo result.hi x }
    {
        Enc {
            lo: scale_floor(self.lo, S, T),
            hi: scale_ceil(self.hi, S, T),
        }
    }

    /// The same mantissas at the scale `2^T`: each number times `2^S / 2^T`.
    pub fn relabel<const T: u32>(self) -> Enc<T>
        requires { T ≤ 60 }
        ensures lo { result.lo ≡ self.entry.lo }
        ensures hi { result.hi ≡ self.entry.hi }
        ensures holds { (x : Fraction) →
            Holds S self.entry.lo self.entry.hi x →
            Holds T result.lo result.hi (times_ℚ x (2 ^ S) (2 ^ T) (pow_pos T)) }
    {
        Enc {
            lo: self.lo,
            hi: self.hi,
        }
    }

    /// The distance of the ends, in units of `2^-S`.
    pub fn width(self) -> i128
        ensures { result ≡ self.entry.hi -ℤ self.entry.lo }
    {
        self.hi - self.lo
    }
}
