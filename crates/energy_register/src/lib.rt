//! The registers of a heat meter: counted pulses, the energy with its bound, and the volume.
#![tactic(auto)]

ghost use Rattle.std.specs.Prelude.{◌≡◌, ℕ, ◌+◌, ◌*◌, ◌≤◌, pos, nat_abs, IfOk, IfErr, IsOk, ◌↔◌};
ghost use Rattle.metering_model.specs.Limits.{max_bound_per_pulse, max_energy_per_pulse, max_pulses};

mod display;
mod limits;

pub use display::digits_text;
pub use limits::{
    MAX_BOUND_PER_PULSE, MAX_ENERGY_PER_PULSE, MAX_PULSES, is_bound_of, is_energy_of,
};
use thiserror::Error;

/// What some pulses add to a register.
#[derive(Clone, Copy, Debug, PartialEq, Eq)]
pub struct Step {
    /// Energy in millijoules.
    pub e_mj: i128,
    /// The bound of the energy's error, in millijoules.
    pub b_mj: u128,
    /// How many of the pulses were counted while a sample was out of range.
    pub faulty: u64,
}

/// Counted pulses, and the energy that they carried with the bound of its error.
#[derive(Clone, Copy, Debug, PartialEq, Eq)]
pub struct Register {
    /// At most [`MAX_PULSES`].
    pub pulses: u64,
    /// Energy in millijoules, at most [`MAX_ENERGY_PER_PULSE`] for each pulse either way.
    pub energy_mj: i128,
    /// The bound of the energy's error in millijoules, at most [`MAX_BOUND_PER_PULSE`] for each pulse.
    pub bound_mj: u128,
    pub ghost pulses_in_range: { pulses ≤ max_pulses },
    pub ghost energy_in_range: { nat_abs energy_mj ≤ max_energy_per_pulse * pulses },
    pub ghost bound_in_range: { bound_mj ≤ max_bound_per_pulse * pulses },
}

/// The register can't count these pulses: it would then have `sum` of them, more than [`MAX_PULSES`].
#[derive(Clone, Copy, Debug, PartialEq, Eq, Error)]
#[error("the register would have {sum} pulses")]
pub struct PulsesFull {
    pub sum: u64,
}

impl Register {
    ghost use Rattle.energy_register.specs.Register.{FitsPulses, Grows};

    /// The register of a new meter.
    pub fn zero() -> Register
        ensures pulses { result.pulses ≡ 0 }
        ensures energy { result.energy_mj ≡ pos 0 }
        ensures bound { result.bound_mj ≡ 0 }
    {
        Register {
            pulses: 0,
            energy_mj: 0,
            bound_mj: 0,
        }
    }

    /// The register with `n` more pulses, 1 to 10^15, and their step.
    ///
    /// # Errors
    /// [`PulsesFull`] exactly where the pulses would be more than [`MAX_PULSES`], with that sum.
    pub fn after(&self, s: Step, n: u64) -> Result<Register, PulsesFull>
        requires { FitsPulses s n }
        ensures room { IsOk result ↔ (self.now.pulses + n ≤ max_pulses) }
        ensures grown { IfOk result (λ r. Grows self.now s n r) }
        ensures full { IfErr result (λ e. e.sum ≡ self.now.pulses + n) }
    {
        let sum = self.pulses + n;
        if sum > MAX_PULSES {
            return Err(PulsesFull { sum });
        }
        Ok(Register {
            pulses: sum,
            energy_mj: self.energy_mj + s.e_mj,
            bound_mj: self.bound_mj + s.b_mj,
        })
    }

    /// The volume in litres, where a pulse stands for `per_pulse` of them.
    pub fn litres(&self, per_pulse: u16) -> u128
        ensures { result ≡ self.now.pulses * per_pulse }
    {
        u128::from(self.pulses) * u128::from(per_pulse)
    }
}
