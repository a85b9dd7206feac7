//! The first parts of a record, as they follow each other in a slot.

ghost use Rattle.std.specs.Prelude.{◌≤◌};
ghost use Rattle.metering_model.specs.Limits.{max_events};

use billing_memory::Day;
use energy_register::Register;

/// Which record it is.
#[derive(Clone, Copy)]
pub(crate) struct Head {
    pub seq: u64,
    pub day: Day,
    pub ghost seq_in_range: { seq ≤ max_events },
}

/// What it has counted.
#[derive(Clone, Copy)]
pub(crate) struct Sums {
    pub faulty: u64,
    pub register: Register,
    pub ghost faulty_in_range: { faulty ≤ register.pulses },
}
