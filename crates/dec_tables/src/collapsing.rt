ghost use Rattle.std.specs.Prelude.{◌≡◌, ℕ, ◌^◌, ◌<◌, ◌≤◌, IsTrue, map, pos, ◌+ℤ◌, ◌≤ℤ◌};
ghost use Rattle.std.specs.List.{sum_by};
ghost use Rattle.parts_model.specs.Ranges.{max_pressure_kpa, min_pressure_kpa};
ghost use Rattle.number_model.specs.Fraction.{Fraction, ◌*ℚ◌, power, whole};
ghost use Rattle.number_model.specs.Enclosure.{Holds};
ghost use Rattle.water_model.specs.Region1.{region1};
ghost use Rattle.water_model.specs.Water.{x_of};
ghost use Rattle.table_model.specs.Tables.{eighth_of};
ghost use Rattle.enclosure_sizes.specs.Size.{SizedBy};
ghost use Rattle.dec_tables.specs.Coefficients.{coefficient_of, term_of};
ghost use Rattle.dec_tables.specs.Parts.{count_of, scale_of, part_coefficient, width_of, share_of};
ghost use Rattle.dec_tables.specs.Sizes.{x_size, factor_fits, factor_size, share_fits, share_size, total_size, coefficient_size};
ghost use Rattle.dec_tables.specs.Polynomials.{magnitude, HoldsEach, WidthEach, SizedEach};

use crate::part::Part;
use crate::poly::Poly;
use crate::scaled::{scaled, x_power};
use crate::table::{Table, Term};
use interval_num::Enc;

/// The coefficients of a part at one pressure p of 1,100 to 4,000 kPa, from an enclosure of x / 8 with
/// x = 7.1 - p / 16530, at most 4 wide. N and S are those of the part.
pub fn collapse<const N: usize, const S: u32>(t: &Table<34>, part: Part, x: Enc<56>) -> Poly<N, S>
    requires table { t.now.terms ≡ map term_of region1 }
    requires count { N ≡ count_of part }
    requires scale { S ≡ scale_of part }
    requires width { x.hi ≤ℤ (x.lo +ℤ pos 4) }
    requires pressure { (p : ℕ) × (min_pressure_kpa ≤ p) × (p ≤ max_pressure_kpa) × Holds 56 x.lo x.hi (eighth_of (x_of p)) }
    ensures holds { (v : Fraction) →
        Holds 56 x.lo x.hi (eighth_of v) → HoldsEach S result.coef (part_coefficient part v) }
    ensures widths { WidthEach S result.coef (width_of part) }
    ensures total { sum_by magnitude result.coef ≤ 2 ^ 59 }
    ensures sized { SizedEach S result.coef (coefficient_size part) }
{
    let mut coef = [Enc::point(0); N];
    for k in 0..N {
        coef[k] = coefficient(t, part, x, k as u32);
    }
    Poly { coef }
}

// coefficient k: the sum over the terms that stand in it
fn coefficient<const S: u32>(t: &Table<34>, part: Part, x: Enc<56>, k: u32) -> Enc<S>
    requires table { t.now.terms ≡ map term_of region1 }
    requires few { k < count_of part }
    requires scale { S ≡ scale_of part }
    requires low { pos 0 ≤ℤ x.lo }
    requires size { SizedBy x_size 0 x.lo x.hi }
    ensures holds { (v : Fraction) →
        Holds 56 x.lo x.hi (eighth_of v) → Holds S result.lo result.hi (part_coefficient part v k) }
    ensures size { SizedBy (total_size (share_size part k) (map term_of region1)) 0 result.lo result.hi }
{
    let mut sum = Enc::point(0);
    for term in &t.terms {
        sum = sum.add(share(term, part, x, k));
    }
    sum
}

// what the term adds to coefficient k
fn share<const S: u32>(t: &Term, part: Part, x: Enc<56>, k: u32) -> Enc<S>
    requires few { k ≤ 64 }
    requires scale { S ≡ scale_of part }
    requires fits { IsTrue (share_fits part k t.now) }
    requires low { pos 0 ≤ℤ x.lo }
    requires size { SizedBy x_size 0 x.lo x.hi }
    ensures holds { (v : Fraction) →
        Holds 56 x.lo x.hi (eighth_of v) → Holds S result.lo result.hi (share_of part v k t.now) }
    ensures size { SizedBy (share_size part k t.now) 0 result.lo result.hi }
{
    if part.has(t, k) {
        standing(&part.factor(t), part.shift(k), x)
    } else {
        Enc::point(0)
    }
}

// the coefficient of t times x^I times 2^shift; high powers of x carry 2^10, as their coefficients
// are beyond the scale
fn standing<const S: u32>(t: &Term, shift: u32, x: Enc<56>) -> Enc<S>
    requires fits { IsTrue (factor_fits S shift t.now) }
    requires low { pos 0 ≤ℤ x.lo }
    requires size { SizedBy x_size 0 x.lo x.hi }
    ensures holds { (v : Fraction) →
        Holds 56 x.lo x.hi (eighth_of v) →
        Holds S result.lo result.hi (coefficient_of t.now *ℚ power v t.now.i *ℚ whole (2 ^ shift)) }
    ensures size { SizedBy (factor_size S shift t.now) 0 result.lo result.hi }
{
    let i = u32::from(t.i);
    let up = 3 * i + shift;
    let power = x_power(x, i);
    if i < 20 {
        scaled::<56, S>(t, up, power)
    } else {
        scaled::<46, S>(t, up - 10, power.relabel())
    }
}
