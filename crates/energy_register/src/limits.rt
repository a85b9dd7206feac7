//! The limits of a register.

ghost use Rattle.std.specs.Prelude.{◌≡◌};
ghost use Rattle.metering_model.specs.Limits.{is_bound_of, is_energy_of};

/// The most pulses that a register counts, 10^15.
pub const MAX_PULSES: u64 = 1_000_000_000_000_000;

/// The most energy of a pulse, either way, in millijoules.
pub const MAX_ENERGY_PER_PULSE: u128 = 2_000_000_000_000;

/// The greatest bound of the error of a pulse's energy, in millijoules.
pub const MAX_BOUND_PER_PULSE: u128 = 2_000_000;

/// Whether so many pulses can have this energy in millijoules.
pub fn is_energy_of(pulses: u64, energy_mj: i128) -> bool
    ensures { result ≡ is_energy_of pulses energy_mj }
{
    energy_mj.unsigned_abs() <= MAX_ENERGY_PER_PULSE * u128::from(pulses)
}

/// Whether the energy of so many pulses can have this bound of its error, in millijoules.
pub fn is_bound_of(pulses: u64, bound_mj: u128) -> bool
    ensures { result ≡ is_bound_of pulses bound_mj }
{
    bound_mj <= MAX_BOUND_PER_PULSE * u128::from(pulses)
}
