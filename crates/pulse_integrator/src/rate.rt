//! The rate at which pulses add energy while samples are in force.

ghost use Rattle.std.specs.Prelude.{◌≡◌, ◌≤◌, IsTrue, None, Some, pos, ◌*ℤ◌};
ghost use Rattle.metering_model.specs.Limits.{max_pulses};
ghost use Rattle.number_model.specs.Rounding.{IsWithin};
ghost use Rattle.parts_model.specs.Ranges.{is_pulse};
ghost use Rattle.pulse_integrator.specs.Adds.{AddsLitre, AddsPulses};

use crate::Origin;
use crate::per_litre::PerLitre;
use energy_register::Step;
use if97_region1::Water;
use meter_parts::Place;
use sensor_pair::Pair;

/// The rate at which pulses add energy while the same samples are in force.
#[derive(Clone, Copy, Debug, PartialEq, Eq)]
pub struct Rate {
    /// The litres that a pulse stands for: 1, 10, 100 or 1000.
    pub per_pulse: u16,
    /// What the rate was made from, and None where no samples are in force.
    pub origin: Option<Origin>,
    litre: PerLitre,
    pub ghost pulse_in_range: { IsTrue (is_pulse per_pulse) },
    pub ghost litre_adds: { AddsLitre origin litre },
}

impl Rate {
    ghost use Rattle.pulse_integrator.specs.Pulses.{times, unit_of};

    /// The rate while no samples are in force, where a pulse stands for `per_pulse` litres: 1, 10, 100
    /// or 1000. It adds nothing.
    pub fn none(per_pulse: u16) -> Rate
        requires { IsTrue (is_pulse per_pulse) }
        ensures per_pulse { result.per_pulse ≡ per_pulse }
        ensures origin { result.origin ≡ None }
    {
        Rate {
            per_pulse,
            origin: None,
            litre: PerLitre::none(false),
        }
    }

    /// The rate at the samples `rf` of the flow and `rr` of the return, in microohms, where a pulse
    /// stands for `per_pulse` litres: 1, 10, 100 or 1000.
    pub fn of(w: &Water, pair: &Pair, place: Place, per_pulse: u16, rf: u32, rr: u32) -> Rate
        requires { IsTrue (is_pulse per_pulse) }
        ensures per_pulse { result.per_pulse ≡ per_pulse }
        ensures origin { result.origin ≡ Some (record { p_kpa = w.now.p_kpa; pair = pair.now; place = place; rf = rf; rr = rr }) }
    {
        let origin = Origin {
            p_kpa: w.p_kpa,
            pair: *pair,
            place,
            rf,
            rr,
        };
        Rate {
            per_pulse,
            origin: Some(origin),
            litre: origin.litre(w),
        }
    }

    /// What one pulse adds.
    pub fn unit(&self) -> Step
        ensures step { result ≡ unit_of self.now }
        ensures adds { AddsPulses self.now.per_pulse self.now.origin 1 result }
    {
        self.add(1)
    }

    /// What `n` pulses add, 1 to 10^15: the energy and a bound of its error, which hold the exact energy
    /// for all temperatures that the samples stand for, with 1,200 mJ a litre left in the bound and hardly
    /// more, and how many of the pulses are faulty. Each is `n` times what one pulse adds.
    pub fn add(&self, n: u64) -> Step
        requires some { 1 ≤ n }
        requires most { n ≤ max_pulses }
        ensures adds { AddsPulses self.now.per_pulse self.now.origin n result }
        ensures times { result ≡ times n (unit_of self.now) }
    {
        let litres = n * u64::from(self.per_pulse);
        Step {
            e_mj: energy(litres, self.litre.e_mj),
            b_mj: u128::from(litres) * u128::from(self.litre.b_mj),
            faulty: if self.litre.faulty { n } else { 0 },
        }
    }
}

// The energy of so many litres, at most 10^18, where one has `e_mj`.
fn energy(litres: u64, e_mj: i64) -> i128
    requires most { litres ≤ 1000000000000000000 }
    requires size { IsWithin 2000000000 e_mj }
    ensures { result ≡ pos litres *ℤ e_mj }
{
    i128::from(litres) * i128::from(e_mj)
}
