ghost use Rattle.std.specs.Prelude.{◌≡◌, ℕ, ◌-◌, ◌*◌, ◌^◌, ◌≤◌, ℤ, pos, neg_ℤ, ◌≤ℤ◌};
ghost use Rattle.std.proofs.lemmas.Nat.{pow_pos};
ghost use Rattle.number_model.specs.Fraction.{Fraction, ◌*ℚ◌, power, times_ℚ};
ghost use Rattle.number_model.specs.Enclosure.{Holds, SpanHolds};
ghost use Rattle.water_model.specs.Decimal.{whole_power};
ghost use Rattle.water_model.specs.Water.{y_of};
ghost use Rattle.enclosure_sizes.specs.Size.{Size, SizedBy, power_size, product_size, up_size};
ghost use Rattle.dec_tables.specs.Sizes.{unit_power_size};
ghost use Rattle.region1_terms.specs.Monomial.{y_power_size, y_shift};

use crate::Variables;
use interval_num::Enc;

// e^n for numbers from 0 to 1
pub(crate) fn unit_power(e: Enc<56>, n: u32) -> Enc<56>
    requires low { pos 0 ≤ℤ e.lo }
    requires high { e.hi ≤ℤ pos (2 ^ 56) }
    requires most { n ≤ 64 }
    ensures low { pos 0 ≤ℤ result.lo }
    ensures high { result.hi ≤ℤ pos (2 ^ 56) }
    ensures holds { (x : Fraction) →
        Holds 56 e.lo e.hi x → Holds 56 result.lo result.hi (power x n) }
    ensures size { (s : Size) (d : ℕ) →
        SizedBy s d e.lo e.hi → SizedBy (unit_power_size n s) d result.lo result.hi }
{
    if n == 0 {
        Enc::point(1 << 56)
    } else {
        e.powi(n)
    }
}

// 2^24 * e^n, for n so large that it stays below 1
fn raised_power(e: Enc<56>, n: u32) -> Enc<56>
    requires low { pos 0 ≤ℤ e.lo }
    requires high { e.hi ≤ℤ pos (35 * 2 ^ 50) }
    requires least { 29 ≤ n }
    requires most { n ≤ 64 }
    ensures low { pos 0 ≤ℤ result.lo }
    ensures high { result.hi ≤ℤ pos (2 ^ 56) }
    ensures holds { (x : Fraction) →
        Holds 56 e.lo e.hi x →
        Holds 56 result.lo result.hi (times_ℚ (power x n) (2 ^ 56) (2 ^ 32) (pow_pos 32)) }
    ensures size { (s : Size) (d : ℕ) →
        SizedBy s d e.lo e.hi →
        SizedBy (up_size (2 ^ 24) (power_size (2 ^ 56) n s)) d result.lo result.hi }
{
    let power: Enc<32> = e.powi(n).relabel();
    power.scale_to()
}

// the product of two numbers from 0 to 1
pub(crate) fn unit_product(a: Enc<56>, b: Enc<56>) -> Enc<56>
    requires a_low { pos 0 ≤ℤ a.lo }
    requires a_high { a.hi ≤ℤ pos (2 ^ 56) }
    requires b_low { pos 0 ≤ℤ b.lo }
    requires b_high { b.hi ≤ℤ pos (2 ^ 56) }
    ensures low { neg_ℤ (pos (2 ^ 56)) ≤ℤ result.lo }
    ensures high { result.hi ≤ℤ pos (2 ^ 56) }
    ensures holds { (x y : Fraction) →
        Holds 56 a.lo a.hi x → Holds 56 b.lo b.hi y → Holds 56 result.lo result.hi (x *ℚ y) }
    ensures size { (s t : Size) (d : ℕ) →
        SizedBy s d a.lo a.hi → SizedBy t d b.lo b.hi →
        SizedBy (product_size (2 ^ 56) s t) d result.lo result.hi }
{
    a.mul(b)
}

// a coefficient times a number from -1 to 1
pub(crate) fn scaled_product(c: Enc<56>, b: Enc<56>) -> Enc<56>
    requires c_low { neg_ℤ (pos (2 ^ 62 - 1)) ≤ℤ c.lo }
    requires c_high { c.hi ≤ℤ pos (2 ^ 62 - 1) }
    requires b_low { neg_ℤ (pos (2 ^ 56)) ≤ℤ b.lo }
    requires b_high { b.hi ≤ℤ pos (2 ^ 56) }
    ensures holds { (x y : Fraction) →
        Holds 56 c.lo c.hi x → Holds 56 b.lo b.hi y → Holds 56 result.lo result.hi (x *ℚ y) }
    ensures size { (s t : Size) (d : ℕ) →
        SizedBy s d c.lo c.hi → SizedBy t d b.lo b.hi →
        SizedBy (product_size (2 ^ 56) s t) d result.lo result.hi }
{
    c.mul(b)
}

// the exponent e where `Variables::y_power` answers y^j * 2^56 / 2^e
pub(crate) fn power_shift(j: i8) -> u32
    requires low { neg_ℤ (pos 48) ≤ℤ j }
    requires high { j ≤ℤ pos 48 }
    ensures { result ≡ y_shift j }
{
    if j >= 0 {
        56 + 2 * u32::from(j.unsigned_abs())
    } else if j > -29 {
        56
    } else {
        32
    }
}

impl Variables {
    // y^j times a power of two: of y / 4 for j from 0 on, of 1 / y below 0, and raised by 2^24 from
    // 1 / y^29 on, where the coefficients grow beyond the scale
    pub(crate) fn y_power(&self, j: i8) -> Enc<56>
        requires low { neg_ℤ (pos 48) ≤ℤ j }
        requires high { j ≤ℤ pos 48 }
        ensures low { pos 0 ≤ℤ result.lo }
        ensures high { result.hi ≤ℤ pos (2 ^ 56) }
        ensures holds { (t : Fraction) →
            SpanHolds self.now.span.lo self.now.span.hi t →
            Holds 56 result.lo result.hi
            (times_ℚ (whole_power (y_of t) j) (2 ^ 56) (2 ^ y_shift j) (pow_pos (y_shift j))) }
        ensures size { SizedBy (y_power_size j) (self.now.span.hi - self.now.span.lo) result.lo result.hi }
    {
        let n = u32::from(j.unsigned_abs());
        if j >= 0 {
            unit_power(self.y_quarter, n)
        } else if n < 29 {
            unit_power(self.inverse_y, n)
        } else {
            raised_power(self.inverse_y, n)
        }
    }
}
