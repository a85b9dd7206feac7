ghost use Rattle.std.specs.Prelude.{◌≡◌, ◌-◌, ◌*◌, ◌≤◌, pos, ◌≤ℤ◌};
ghost use Rattle.number_model.specs.Enclosure.{max_ndeg};
ghost use Rattle.interval_num.specs.Ends.{quotient_floor, quotient_ceil};
ghost use Rattle.region1_terms.specs.Variables.{TauVariablesHold, TauVariablesSized, nanokelvin_of, rest_of};

use interval_num::{Enc, Span};

/// 1 / tau and y / tau over a span of temperatures, with tau = 1386 / T and y = tau - 1.222. Each is
/// enclosed as one ratio.
#[derive(Clone, Copy)]
pub struct TauVariables {
    pub span: Span,
    pub inverse_tau: Enc<56>,
    pub y_over_tau: Enc<56>,
    pub ghost holds: { TauVariablesHold span.lo span.hi inverse_tau.lo inverse_tau.hi y_over_tau.lo y_over_tau.hi },
    pub ghost sized: { TauVariablesSized (span.hi - span.lo)
        inverse_tau.lo inverse_tau.hi y_over_tau.lo y_over_tau.hi },
}

impl TauVariables {
    /// The variables at each temperature of `span`.
    pub fn over(span: Span) -> TauVariables
        ensures { result.span ≡ span }
    {
        TauVariables {
            span,
            inverse_tau: hull(inverse_tau_at(span.lo), inverse_tau_at(span.hi)),
            y_over_tau: hull(y_over_tau_at(span.hi), y_over_tau_at(span.lo)),
        }
    }
}

// from the lower end of one to the upper end of the other
pub(crate) fn hull(low: Enc<56>, high: Enc<56>) -> Enc<56>
    requires { low.lo ≤ℤ high.hi }
    ensures lo { result.lo ≡ low.lo }
    ensures hi { result.hi ≡ high.hi }
{
    Enc::of_ends(low.lo, high.hi)
}

// the temperature in nanokelvin
pub(crate) fn nanokelvin(t: u64) -> i128
    requires { t ≤ max_ndeg }
    ensures { result ≡ pos (nanokelvin_of t) }
{
    273_150_000_000 + i128::from(t)
}

// 1 / tau at t nanodegrees
fn inverse_tau_at(t: u64) -> Enc<56>
    requires { t ≤ max_ndeg }
    ensures lo { result.lo ≡ quotient_floor 56 (pos (nanokelvin_of t)) (pos 1386000000000) }
    ensures hi { result.hi ≡ quotient_ceil 56 (pos (nanokelvin_of t)) (pos 1386000000000) }
{
    Enc::of_ratio(nanokelvin(t), 1_386_000_000_000)
}

// y / tau at t nanodegrees
fn y_over_tau_at(t: u64) -> Enc<56>
    requires { t ≤ max_ndeg }
    ensures lo { result.lo ≡ quotient_floor 56 (pos (rest_of t)) (pos 1386000000000000) }
    ensures hi { result.hi ≡ quotient_ceil 56 (pos (rest_of t)) (pos 1386000000000000) }
{
    Enc::of_ratio(
        1_386_000_000_000_000 - 1_222 * nanokelvin(t),
        1_386_000_000_000_000,
    )
}
