ghost use Rattle.std.specs.Prelude.{◌≡◌, ◌-◌, ◌*◌, ◌≤◌, pos, ◌≤ℤ◌};
ghost use Rattle.number_model.specs.Enclosure.{max_ndeg};
ghost use Rattle.interval_num.specs.Ends.{quotient_floor, quotient_ceil};
ghost use Rattle.region1_terms.specs.Variables.{VariablesHold, VariablesSized, nanokelvin_of, rest_of};

use crate::tau::{hull, nanokelvin};
use interval_num::{Enc, Span};

/// The variables of IAPWS-IF97 over a span of temperatures that terms and tables are in powers of, in
/// forms that lie from 0 to 1: y / 4 and 1 / y, with y = 1386 / T - 1.222. The pressure is in neither.
#[derive(Clone, Copy)]
pub struct Variables {
    pub span: Span,
    pub y_quarter: Enc<56>,
    pub inverse_y: Enc<56>,
    pub ghost holds: { VariablesHold span.lo span.hi y_quarter.lo y_quarter.hi inverse_y.lo inverse_y.hi },
    pub ghost sized: { VariablesSized (span.hi - span.lo) y_quarter.lo y_quarter.hi inverse_y.lo inverse_y.hi },
}

impl Variables {
    /// The variables at each temperature of `span`.
    pub fn over(span: Span) -> Variables
        ensures { result.span ≡ span }
    {
        Variables {
            span,
            y_quarter: hull(y_quarter_at(span.hi), y_quarter_at(span.lo)),
            inverse_y: hull(inverse_y_at(span.lo), inverse_y_at(span.hi)),
        }
    }
}

// y / 4 at t nanodegrees
fn y_quarter_at(t: u64) -> Enc<56>
    requires { t ≤ max_ndeg }
    ensures lo { result.lo ≡ quotient_floor 56 (pos (rest_of t)) (pos (4000 * nanokelvin_of t)) }
    ensures hi { result.hi ≡ quotient_ceil 56 (pos (rest_of t)) (pos (4000 * nanokelvin_of t)) }
{
    let kelvin = nanokelvin(t);
    Enc::of_ratio(1_386_000_000_000_000 - 1_222 * kelvin, 4_000 * kelvin)
}

// 1 / y at t nanodegrees
fn inverse_y_at(t: u64) -> Enc<56>
    requires { t ≤ max_ndeg }
    ensures lo { result.lo ≡ quotient_floor 56 (pos (1000 * nanokelvin_of t)) (pos (rest_of t)) }
    ensures hi { result.hi ≡ quotient_ceil 56 (pos (1000 * nanokelvin_of t)) (pos (rest_of t)) }
{
    let kelvin = nanokelvin(t);
    Enc::of_ratio(1_000 * kelvin, 1_386_000_000_000_000 - 1_222 * kelvin)
}
