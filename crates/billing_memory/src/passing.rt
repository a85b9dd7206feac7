//! What is entered at the first days of the months that a meter passes. Months are counted from 0,
//! for January 2000.

ghost use Rattle.std.specs.Prelude.{◌≡◌, ◌-◌, ◌≤◌, ◌<◌, ◌++◌, ◌∷◌, [], ◌==◌, map, filter, Some};
ghost use Rattle.std.specs.List.{range_with_len};
ghost use Rattle.arrayvec.specs.ArrayVec.{array_vec_len};
ghost use Rattle.calendar_model.specs.Calendar.{month_of_year};
ghost use Rattle.calendar_model.specs.Entries.{latest, last_or, entry_of};
ghost use Rattle.metering_model.specs.Limits.{max_months};
ghost use Rattle.energy_register.specs.Register.{register_view};
ghost use Rattle.billing_memory.specs.Entries.{entry_view, entries_view, set_day_view};

use crate::{Day, Entry, KEPT_MONTHS};
use arrayvec::ArrayVec;
use energy_register::Register;

// Appends an entry for each month from `from` up to but not with `to`, and keeps the latest. Only
// those that are kept are made.
pub(crate) fn enter_months(
    months: &mut ArrayVec<Entry, KEPT_MONTHS>,
    register: Register,
    from: u16,
    to: u16,
)
    requires known { to ≤ 1200 }
    requires kept { array_vec_len months.old ≤ max_months }
    ensures entered { entries_view months.new.items
        ≡ latest max_months (entries_view months.old.items
        ++ map (entry_of (register_view register)) (range_with_len from (to - from))) }
    ensures kept { array_vec_len months.new ≤ max_months }
{
    for month in from.max(to.saturating_sub(KEPT_MONTHS as u16))..to {
        push_latest(months, entry_at(register, month));
    }
}

fn push_latest(months: &mut ArrayVec<Entry, KEPT_MONTHS>, entry: Entry)
    requires { array_vec_len months.old ≤ max_months }
    ensures latest { months.new.items ≡ latest max_months (months.old.items ++ entry ∷ []) }
    ensures kept { array_vec_len months.new ≤ max_months }
{
    if months.len() == KEPT_MONTHS {
        months.remove(0);
    }
    months.push(entry);
}

fn entry_at(register: Register, month: u16) -> Entry
    requires { month < 1200 }
    ensures { entry_view result ≡ entry_of (register_view register) month }
{
    Entry {
        day: Day::first_of(month),
        register,
    }
}

// Makes the latest of these months that is the set month the set day.
pub(crate) fn enter_set_day(
    set_day: &mut Option<Entry>,
    register: Register,
    from: u16,
    to: u16,
    set_month: u8,
)
    requires { to ≤ 1200 }
    ensures { set_day_view set_day.new
        ≡ last_or (set_day_view set_day.old)
        (map (λ month. Some (entry_of (register_view register) month))
        (filter (λ month. month_of_year month == set_month) (range_with_len from (to - from)))) }
{
    for month in (from..to).rev() {
        if month % 12 + 1 == u16::from(set_month) {
            *set_day = Some(entry_at(register, month));
            return;
        }
    }
}
