ghost use Rattle.std.specs.Prelude.{◌≡◌, ℕ, ◌-◌, ◌^◌, ◌≤◌, pos, neg_ℤ, ◌≤ℤ◌};
ghost use Rattle.number_model.specs.Fraction.{Fraction, ◌*ℚ◌};
ghost use Rattle.number_model.specs.Enclosure.{Holds, SpanHolds, max_ndeg};
ghost use Rattle.interval_num.specs.Ends.{quotient_floor, quotient_ceil};
ghost use Rattle.water_model.specs.Water.{tau_of, gas_constant};
ghost use Rattle.enclosure_sizes.specs.Size.{Size, SizedBy, product_size};
ghost use Rattle.region1_terms.specs.Variables.{nanokelvin_of};
ghost use Rattle.slope_cert.specs.Sizes.{tau_size, gas_constant_size, factor_size};

use interval_num::{Enc, Span};

// tau = 1386 / T at t nanodegrees
fn tau_at(t: u64) -> Enc<56>
    requires { t ≤ max_ndeg }
    ensures lo { result.lo ≡ quotient_floor 56 (pos 1386000000000) (pos (nanokelvin_of t)) }
    ensures hi { result.hi ≡ quotient_ceil 56 (pos 1386000000000) (pos (nanokelvin_of t)) }
{
    Enc::of_ratio(1_386_000_000_000, 273_150_000_000 + i128::from(t))
}

// tau over a span: it falls with the temperature
fn tau_over(span: Span) -> Enc<56>
    ensures holds { (t : Fraction) → SpanHolds span.lo span.hi t → Holds 56 result.lo result.hi (tau_of t) }
    ensures sized { SizedBy tau_size (span.hi - span.lo) result.lo result.hi }
    ensures low { neg_ℤ (pos (2 ^ 59)) ≤ℤ result.lo }
    ensures high { result.hi ≤ℤ pos (2 ^ 59) }
{
    let (least, most) = (tau_at(span.hi), tau_at(span.lo));
    Enc::of_ends(least.lo, most.hi)
}

// R = 0.461526 kJ/(kg K)
fn gas_constant_enclosed() -> Enc<56>
    ensures holds { Holds 56 result.lo result.hi gas_constant }
    ensures sized { (d : ℕ) → SizedBy gas_constant_size d result.lo result.hi }
    ensures low { neg_ℤ (pos (2 ^ 55)) ≤ℤ result.lo }
    ensures high { result.hi ≤ℤ pos (2 ^ 55) }
{
    Enc::of_ratio(461_526, 1_000_000)
}

// the product of a number from -1/2 to 1/2 and two numbers from -8 to 8
fn triple_product(a: Enc<56>, b: Enc<56>, c: Enc<56>) -> Enc<56>
    requires a_low { neg_ℤ (pos (2 ^ 55)) ≤ℤ a.lo }
    requires a_high { a.hi ≤ℤ pos (2 ^ 55) }
    requires b_low { neg_ℤ (pos (2 ^ 59)) ≤ℤ b.lo }
    requires b_high { b.hi ≤ℤ pos (2 ^ 59) }
    requires c_low { neg_ℤ (pos (2 ^ 59)) ≤ℤ c.lo }
    requires c_high { c.hi ≤ℤ pos (2 ^ 59) }
    ensures holds { (x y z : Fraction) →
        Holds 56 a.lo a.hi x → Holds 56 b.lo b.hi y → Holds 56 c.lo c.hi z →
        Holds 56 result.lo result.hi (x *ℚ y *ℚ z) }
    ensures size { (s t u : Size) (d : ℕ) →
        SizedBy s d a.lo a.hi → SizedBy t d b.lo b.hi → SizedBy u d c.lo c.hi →
        SizedBy (product_size (2 ^ 56) (product_size (2 ^ 56) s t) u) d result.lo result.hi }
{
    a.mul(b).mul(c)
}

/// R tau1 tau2 in kJ/(kg K), for any two temperatures of a span.
pub(crate) fn slope_factor(span: Span) -> Enc<56>
    ensures holds { (t1 t2 : Fraction) →
        SpanHolds span.lo span.hi t1 → SpanHolds span.lo span.hi t2 →
        Holds 56 result.lo result.hi (gas_constant *ℚ tau_of t1 *ℚ tau_of t2) }
    ensures sized { SizedBy factor_size (span.hi - span.lo) result.lo result.hi }
{
    let tau = tau_over(span);
    triple_product(gas_constant_enclosed(), tau, tau)
}
