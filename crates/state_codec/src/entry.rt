//! Entries in bytes.

ghost use Rattle.std.specs.Prelude.{◌≡◌, ◌≤◌, length};
ghost use Rattle.std.specs.Int.{IsInRange};
ghost use Rattle.calendar_model.specs.Calendar.{is_first_day};
ghost use Rattle.billing_memory.specs.Entries.{entry_view};
ghost use Rattle.metering_model.specs.Limits.{max_pulses};
ghost use Rattle.memory_model.specs.Slot.{entry_size, months_begun};
ghost use Rattle.state_codec.specs.Slot.{ReadsRegister, ReadsEntry, entry_bytes};

use crate::fields::{i128_at, is_blank, u16_at, u64_at, u128_at};
use billing_memory::{Day, Entry, is_day};
use energy_register::{Register, is_bound_of, is_energy_of};

/// How many bytes an entry has.
pub(crate) const ENTRY_SIZE: usize = 48;

/// The register, where its energy and its bound are within their limits for its pulses.
pub(crate) fn register_of(pulses: u64, energy_mj: i128, bound_mj: u128) -> Option<Register>
    requires { pulses ≤ max_pulses }
    ensures { ReadsRegister pulses energy_mj bound_mj result }
{
    if !is_energy_of(pulses, energy_mj) || !is_bound_of(pulses, bound_mj) {
        return None;
    }
    Some(Register {
        pulses,
        energy_mj,
        bound_mj,
    })
}

/// How many months have begun by a day, since January 2000.
pub(crate) fn month_number(day: Day) -> u16
    ensures number { result ≡ months_begun day.number }
    ensures small { result ≤ 1200 }
{
    let (year, month, _) = day.parts();
    (year - 2000) * 12 + u16::from(month)
}

fn is_month_start(day: Day) -> bool
    ensures { result ≡ is_first_day day.number }
{
    day.month_start().number == day.number
}

/// The entry in these bytes, in a record with so many pulses, and None where it breaks a rule.
#[tactic(auto, unfolding(memory_model::specs::Slot::is_entry, memory_model::specs::Slot::entry_of))]
pub(crate) fn read_entry(bytes: &[u8], record_pulses: u64) -> Option<Entry>
    requires size { length bytes.now ≡ entry_size }
    requires pulses { record_pulses ≤ max_pulses }
    ensures { ReadsEntry record_pulses bytes.now result }
{
    let number = u16_at(bytes, 0);
    if !is_day(number) {
        return None;
    }
    let day = Day { number };
    let pulses = u64_at(bytes, 8);
    if !is_month_start(day) || !is_blank(&bytes[2..8]) || pulses > record_pulses {
        return None;
    }
    match register_of(pulses, i128_at(bytes, 16), u128_at(bytes, 32)) {
        Some(register) => Some(Entry { day, register }),
        None => None,
    }
}

/// The bytes of an entry.
#[tactic(auto, unfolding(crate::specs::Slot::entry_bytes))]
pub(crate) fn write_entry(entry: &Entry) -> [u8; ENTRY_SIZE]
    ensures { result ≡ entry_bytes (entry_view entry.now) }
{
    let d = entry.day.number.to_le_bytes();
    let p = entry.register.pulses.to_le_bytes();
    let e = entry.register.energy_mj.to_le_bytes();
    let b = entry.register.bound_mj.to_le_bytes();
    [
        d[0], d[1], 0, 0, 0, 0, 0, 0, p[0], p[1], p[2], p[3], p[4], p[5], p[6], p[7], e[0], e[1],
        e[2], e[3], e[4], e[5], e[6], e[7], e[8], e[9], e[10], e[11], e[12], e[13], e[14], e[15],
        b[0], b[1], b[2], b[3], b[4], b[5], b[6], b[7], b[8], b[9], b[10], b[11], b[12], b[13],
        b[14], b[15],
    ]
}
