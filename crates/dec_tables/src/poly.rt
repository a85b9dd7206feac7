ghost use Rattle.std.specs.Prelude.{◌≡◌, ℕ, ◌+◌, ◌^◌, ◌≤◌, pos, ◌≤ℤ◌};
ghost use Rattle.std.specs.List.{sum_by};
ghost use Rattle.number_model.specs.Fraction.{Fraction};
ghost use Rattle.number_model.specs.Enclosure.{Holds};
ghost use Rattle.table_model.specs.Tables.{polynomial};
ghost use Rattle.dec_tables.specs.Polynomials.{magnitude, HoldsEach, horner_ends};

use crate::step::step;
use interval_num::Enc;

/// A polynomial of N enclosed coefficients, at most 64: `coef[k]` belongs to the k-th power.
#[derive(Clone, Copy)]
pub struct Poly<const N: usize, const S: u32> {
    pub coef: [Enc<S>; N],
    pub ghost few: { N ≤ 64 },
}

impl<const N: usize, const S: u32> Poly<N, S> {
    /// The sum of `c * z^k` over the coefficients, for `z` from 0 to 1: with H(N) = 0 and
    /// H(k) = coef(k) + z * H(k+1), by the ends of `Enc::add` and `Enc::mul`, this is H(0).
    pub fn horner(&self, z: Enc<S>) -> Enc<S>
        requires low { pos 0 ≤ℤ z.lo }
        requires high { z.hi ≤ℤ pos (2 ^ S) }
        requires size { sum_by magnitude self.now.coef + N ≤ 2 ^ 61 }
        ensures lo { result.lo ≡ (horner_ends S z.entry.lo z.entry.hi self.now.coef).0 }
        ensures hi { result.hi ≡ (horner_ends S z.entry.lo z.entry.hi self.now.coef).1 }
        ensures holds { (c : ℕ → Fraction) (y : Fraction) →
            HoldsEach S self.now.coef c → Holds S z.entry.lo z.entry.hi y →
            Holds S result.lo result.hi (polynomial c N y) }
    {
        let mut sum = Enc::point(0);
        for k in (0..N).rev() {
            sum = step(self.coef[k], z, sum);
        }
        sum
    }
}
