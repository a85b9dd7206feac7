//! What the meter remembers of a first day of a month.

ghost use Rattle.std.specs.Prelude.{◌≡◌, IsTrue};
ghost use Rattle.calendar_model.specs.Calendar.{is_first_day};

use crate::Day;
use energy_register::Register;

/// The register as it was on a first day of a month.
#[derive(Clone, Copy, Debug, PartialEq, Eq)]
pub struct Entry {
    /// The first day of a month.
    pub day: Day,
    pub register: Register,
    pub ghost first_of_month: { IsTrue (is_first_day day.number) },
}

impl Default for Entry {
    ghost is_default = { λ e. (e.day.number ≡ 0) × (e.register.pulses ≡ 0) };

    fn default() -> Entry {
        Entry {
            day: Day { number: 0 },
            register: Register::zero(),
        }
    }
}
