ghost use Rattle.std.specs.Prelude.{◌≡◌, ◌-◌, ◌^◌, ◌≤◌, IsTrue, unsigned_abs, pos, neg_ℤ, ◌-ℤ◌, ◌*ℤ◌, ◌≤ℤ◌};
ghost use Rattle.number_model.specs.Fraction.{Fraction, ◌<ℚ◌, ◌-ℚ◌, ◌/ℚ◌};
ghost use Rattle.number_model.specs.Enclosure.{Holds, SpanHolds};
ghost use Rattle.water_model.specs.Water.{x_of, y_of, g_tau};
ghost use Rattle.enclosure_sizes.specs.Size.{SizedBy};
ghost use Rattle.region1_terms.specs.Monomial.{fits, Evaluates};
ghost use Rattle.slope_cert.specs.Curvature.{curvature_of, curvature_sum_size};

use dec_tables::{Term, region1_table};
use interval_num::Enc;
use region1_terms::{PressureVariable, Variables};

// J (J - 1), the factor that the second derivative of y^J has
fn second_factor(j: i8) -> i64
    ensures value { result ≡ j *ℤ (j -ℤ pos 1) }
    ensures small { unsigned_abs result ≤ 2 ^ 15 }
{
    let j = i64::from(j);
    j * (j - 1)
}

// the mantissa of -n J (J - 1)
fn curvature_mantissa(t: &Term) -> i64
    requires { unsigned_abs t.now.mantissa ≤ 2 ^ 47 }
    ensures { result ≡ neg_ℤ (t.now.j *ℤ (t.now.j -ℤ pos 1) *ℤ t.now.mantissa) }
{
    -(second_factor(t.j) * t.mantissa)
}

// -n J (J - 1) x^I y^(J - 2), as a term
fn curvature_term(t: &Term) -> Term
    requires power { neg_ℤ (pos 126) ≤ℤ t.now.j }
    requires mantissa { unsigned_abs t.now.mantissa ≤ 2 ^ 47 }
    ensures { result ≡ curvature_of t.now }
{
    Term {
        i: t.i,
        j: t.j - 2,
        mantissa: curvature_mantissa(t),
        exp10: t.exp10,
    }
}

// its value
fn curvature(x: &PressureVariable, v: &Variables, t: &Term) -> Enc<56>
    requires power { neg_ℤ (pos 126) ≤ℤ t.now.j }
    requires mantissa { unsigned_abs t.now.mantissa ≤ 2 ^ 47 }
    requires fits { IsTrue (fits (curvature_of t.now)) }
    ensures { Evaluates x.now.pressure v.now.span.lo v.now.span.hi (curvature_of t.now) result.lo result.hi }
{
    v.monomial(x, &curvature_term(t))
}

/// The quotient of the fall of g_tau by that of y, which is minus the mean of its second derivative:
/// the sum of -n J (J - 1) x^I y^(J - 2) over the published rows. Each quotient over two temperatures
/// lies between the derivatives at the two.
pub(crate) fn curvature_sum(x: &PressureVariable, v: &Variables) -> Enc<56>
    ensures holds { (t1 t2 : Fraction) →
        SpanHolds v.now.span.lo v.now.span.hi t1 → SpanHolds v.now.span.lo v.now.span.hi t2 → t1 <ℚ t2 →
        Holds 56 result.lo result.hi
        ((g_tau (x_of x.now.pressure) (y_of t2) -ℚ g_tau (x_of x.now.pressure) (y_of t1))
        /ℚ (y_of t1 -ℚ y_of t2)) }
    ensures sized { SizedBy curvature_sum_size (v.now.span.hi - v.now.span.lo) result.lo result.hi }
{
    let table = region1_table();
    let mut sum = Enc::point(0);
    for term in &table.terms {
        sum = sum.add(curvature(x, v, term));
    }
    sum
}
