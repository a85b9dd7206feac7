//! The record of a meter, and what it enters when the day moves on.

ghost use Rattle.std.specs.Prelude.{◌≡◌, ◌<◌, ◌≤◌, ◌++◌, ◌∷◌, map, IsTrue, [], None, IsErr, OnOk, OnErr, IfErr, ◌↔◌};
ghost use Rattle.std.specs.Int.{IsInRange};
ghost use Rattle.std.specs.Option.{ForSome};
ghost use Rattle.calendar_model.specs.Calendar.{first_day, months_to};
ghost use Rattle.calendar_model.specs.Entries.{days_of, latest, never_falls};
ghost use Rattle.metering_model.specs.Limits.{max_events, max_months};
ghost use Rattle.billing_memory.specs.Entries.{entries_view, set_day_view, pulses_of};
ghost use Rattle.arrayvec.specs.ArrayVec.{array_vec_len};

use crate::passing::{enter_months, enter_set_day};
use crate::{Day, Entry};
use arrayvec::ArrayVec;
use energy_register::Register;
use thiserror::Error;

/// The most events that a meter keeps, 10^18.
pub const MAX_EVENTS: u64 = 1_000_000_000_000_000_000;

/// How many month entries a record keeps.
pub const KEPT_MONTHS: usize = 24;

/// What a meter has counted, and the entries that it keeps for billing.
#[derive(Debug, PartialEq, Eq, Drop)]
pub struct MeterRecord {
    /// The events that the meter has kept, at most [`MAX_EVENTS`].
    pub seq: u64,
    /// The day in force.
    pub day: Day,
    /// The samples of flow and return in force, in microohms.
    pub samples: Option<(u32, u32)>,
    /// Of the register's pulses those that came while a sample was out of range.
    pub faulty: u64,
    pub register: Register,
    /// The latest first days of months that were passed, oldest first.
    pub months: ArrayVec<Entry, KEPT_MONTHS>,
    /// The latest first day of the set month that was passed.
    pub set_day: Option<Entry>,
    pub ghost seq_in_range: { seq ≤ max_events },
    pub ghost faulty_in_range: { faulty ≤ register.pulses },
    pub ghost months_kept: { array_vec_len months ≤ max_months },
    pub ghost months_in_row: { days_of (entries_view months.items)
        ≡ map first_day (latest (array_vec_len months) (months_to day.number)) },
    pub ghost pulses_in_order: { IsTrue (never_falls (pulses_of (entries_view months.items)
        ++ register.pulses ∷ [])) },
    pub ghost set_day_passed: { ForSome (set_day_view set_day) (λ e.
        (e.day ≤ day.number) × (e.register.pulses ≤ register.pulses)) },
}

/// The day is before the one in force.
#[derive(Clone, Copy, Debug, PartialEq, Eq, Error)]
#[error("the day is before day {} in force", self.in_force.number)]
pub struct DateBack {
    pub in_force: Day,
}

impl MeterRecord {
    ghost use Rattle.calendar_model.specs.Entries.{passed_entries, set_entry};
    ghost use Rattle.energy_register.specs.Register.{register_view};
    ghost use Rattle.metering_model.specs.Records.{zero_register};
    ghost use Rattle.billing_memory.specs.Counts.{KeepsCounts};

    /// The record of a meter that has counted nothing, on a day.
    pub fn opening(day: Day) -> MeterRecord
        ensures seq { result.seq ≡ 0 }
        ensures day { result.day ≡ day }
        ensures samples { result.samples ≡ None }
        ensures faulty { result.faulty ≡ 0 }
        ensures register { register_view result.register ≡ zero_register }
        ensures months { result.months.items ≡ [] }
        ensures set_day { result.set_day ≡ None }
    {
        MeterRecord {
            seq: 0,
            day,
            samples: None,
            faulty: 0,
            register: Register::zero(),
            months: ArrayVec::new(),
            set_day: None,
        }
    }

    /// The same record again. It takes no memory.
    pub fn duplicate(&self) -> MeterRecord
        ensures { result ≡ self.now }
    {
        let mut months = ArrayVec::new();
        months
            .try_extend_from_slice(self.months.as_slice())
            .unwrap();
        MeterRecord {
            seq: self.seq,
            day: self.day,
            samples: self.samples,
            faulty: self.faulty,
            register: self.register,
            months,
            set_day: self.set_day,
        }
    }

    /// Moves on to a day. Each first day of a month after the day in force, up to the new one,
    /// gives an entry with the register as it is. The latest [`KEPT_MONTHS`] are kept, and of the
    /// new ones the latest in `set_month`, 1 to 12, becomes the set day.
    ///
    /// # Errors
    /// [`DateBack`] exactly where the day is before the one in force. Nothing is changed then.
    pub fn move_to(&mut self, day: Day, set_month: u8) -> Result<(), DateBack>
        requires { IsInRange 1 12 set_month }
        ensures back { IsErr result ↔ (day.number < self.old.day.number) }
        ensures in_force { IfErr result (λ e. e.in_force ≡ self.old.day) }
        ensures unchanged { OnErr result (self.new ≡ self.old) }
        ensures months { OnOk result (entries_view self.new.months.items
            ≡ latest max_months (entries_view self.old.months.items
            ++ passed_entries (register_view self.old.register) self.old.day.number day.number)) }
        ensures set_day { OnOk result (set_day_view self.new.set_day
            ≡ set_entry (register_view self.old.register) set_month self.old.day.number day.number
            (set_day_view self.old.set_day)) }
        ensures day { OnOk result (self.new.day ≡ day) }
        ensures counts { OnOk result (KeepsCounts self.old self.new) }
    {
        if day.number < self.day.number {
            return Err(DateBack { in_force: self.day });
        }
        let passed = self.day.month() + 1..day.month() + 1;
        enter_months(&mut self.months, self.register, passed.start, passed.end);
        enter_set_day(
            &mut self.set_day,
            self.register,
            passed.start,
            passed.end,
            set_month,
        );
        self.day = day;
        Ok(())
    }
}
