ghost use Rattle.std.specs.Prelude.{◌≡◌, ℕ, ◌-◌, ◌≤◌, pos, ◌≤ℤ◌};
ghost use Rattle.parts_model.specs.Ranges.{max_pressure_kpa, min_pressure_kpa};
ghost use Rattle.interval_num.specs.Ends.{quotient_floor, quotient_ceil};
ghost use Rattle.enclosure_sizes.specs.Size.{SizedBy};
ghost use Rattle.region1_terms.specs.Variables.{HoldsX, x_size};

use interval_num::Enc;

/// The reduced variable of IAPWS-IF97 that the pressure alone fixes, in a form that lies from 0 to 1:
/// x / 8, with x = 7.1 - p / 16530.
#[derive(Clone, Copy)]
pub struct PressureVariable {
    pub pressure: u32,
    pub x_eighth: Enc<56>,
    pub ghost holds: { HoldsX pressure x_eighth.lo x_eighth.hi },
    pub ghost sized: { (d : ℕ) → SizedBy x_size d x_eighth.lo x_eighth.hi },
    pub ghost low: { pos 0 ≤ℤ x_eighth.lo },
}

impl PressureVariable {
    /// The variable at `pressure` kPa, 1,100 to 4,000.
    pub fn at(pressure: u32) -> PressureVariable
        requires low { min_pressure_kpa ≤ pressure }
        requires high { pressure ≤ max_pressure_kpa }
        ensures { result.pressure ≡ pressure }
    {
        PressureVariable {
            pressure,
            x_eighth: x_eighth_at(pressure),
        }
    }
}

// x / 8 at `p` kPa
fn x_eighth_at(p: u32) -> Enc<56>
    requires low { min_pressure_kpa ≤ p }
    requires high { p ≤ max_pressure_kpa }
    ensures lo { result.lo ≡ quotient_floor 56 (pos (117363 - p)) (pos 132240) }
    ensures hi { result.hi ≡ quotient_ceil 56 (pos (117363 - p)) (pos 132240) }
{
    Enc::of_ratio(i128::from(117_363 - p), 132_240)
}
