ghost use Rattle.std.specs.Prelude.{◌≡◌, ◌^◌, ◌≤◌, unsigned_abs};
ghost use Rattle.dec_tables.specs.Parts.{stands_at, factor_of, pressure_factor, temperature_factor, shift_of};

use super::part::Part;
use super::table::Term;

impl Part {
    // whether the term stands in coefficient k
    pub(crate) fn has(self, t: &Term, k: u32) -> bool
        ensures { result ≡ stands_at self k t.now.j }
    {
        let k = i64::from(k);
        match self {
            Part::VolumeUp => i64::from(t.j) == k,
            Part::VolumeDown => k > 0 && i64::from(t.j) == -k,
            Part::HeatUp => i64::from(t.j) - 1 == k,
            Part::HeatDown => k > 0 && i64::from(t.j) - 1 == -k,
        }
    }

    // the coefficient and the power of x that the term has in this part
    pub(crate) fn factor(self, t: &Term) -> Term
        requires { unsigned_abs t.now.mantissa ≤ 2 ^ 53 }
        ensures { result ≡ factor_of self t.now }
    {
        match self {
            Part::VolumeUp | Part::VolumeDown => by_pressure(t),
            Part::HeatUp | Part::HeatDown => by_temperature(t),
        }
    }

    // the e of the factor 2^e that coefficient k has
    pub(crate) fn shift(self, k: u32) -> u32
        requires { k ≤ 64 }
        ensures { result ≡ shift_of self k }
    {
        match self {
            Part::VolumeUp | Part::HeatUp => 2 * k,
            Part::VolumeDown | Part::HeatDown => 0,
        }
    }
}

// -n I x^(I-1)
fn by_pressure(t: &Term) -> Term
    requires { unsigned_abs t.now.mantissa ≤ 2 ^ 53 }
    ensures { result ≡ pressure_factor t.now }
{
    Term {
        i: t.i.saturating_sub(1),
        j: t.j,
        mantissa: -(i64::from(t.i) * t.mantissa),
        exp10: t.exp10,
    }
}

// n J x^I
fn by_temperature(t: &Term) -> Term
    requires { unsigned_abs t.now.mantissa ≤ 2 ^ 53 }
    ensures { result ≡ temperature_factor t.now }
{
    Term {
        i: t.i,
        j: t.j,
        mantissa: i64::from(t.j) * t.mantissa,
        exp10: t.exp10,
    }
}
