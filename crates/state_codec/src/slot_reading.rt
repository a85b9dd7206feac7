//! A slot, read.

ghost use Rattle.std.specs.Prelude.{◌≡◌, ◌≤◌, ◌<◌, ◌-◌, ◌∷◌, [], length, IfOk};
ghost use Rattle.arrayvec.specs.ArrayVec.{array_vec_len};
ghost use Rattle.billing_memory.specs.Entries.{entry_view, entries_view, set_day_view};
ghost use Rattle.billing_memory.specs.Records.{record_view};
ghost use Rattle.metering_model.specs.Limits.{max_months, max_pulses};
ghost use Rattle.memory_model.specs.Fields.{blank, number};
ghost use Rattle.memory_model.specs.Slot.{record_in, month_fields, samples_of, set_day_of, follows, month_part, month_entry, ends_right, slot_size};
ghost use Rattle.state_codec.specs.Reading.{Gives, Passes, checked};
ghost use Rattle.state_codec.specs.Slot.{head_fields, head_view, head_of, sample_fields, sum_fields, sums_view, sums_of, set_day_fields, goes_on_after, entries_to, ReadsMonth, ReadsMonths};

use crate::Foreign;
use crate::entry::{ENTRY_SIZE, month_number, read_entry};
use crate::fields::{i128_at, is_blank, u8_at, u16_at, u32_at, u64_at, u128_at};
use crate::slot_parts::{Head, Sums};
use arrayvec::ArrayVec;
use billing_memory::{Day, Entry, KEPT_MONTHS, MAX_EVENTS, MeterRecord, is_day};
use energy_register::{MAX_PULSES, Register, is_bound_of, is_energy_of};

/// How many bytes a slot has.
pub const SLOT_SIZE: usize = 1_280;

/// The record that a slot's bytes hold.
///
/// # Errors
/// [`Foreign`] with the offset, within the slot, of the first field that breaks its rule.
pub fn decode_record(bytes: &[u8; SLOT_SIZE]) -> Result<MeterRecord, Foreign>
    ensures { Gives record_view result (record_in bytes.now) }
{
    read_record(bytes.as_slice())
}

fn read_record(bytes: &[u8]) -> Result<MeterRecord, Foreign>
    requires { length bytes.now ≡ slot_size }
    ensures { Gives record_view result (record_in bytes.now) }
{
    let head = read_head(bytes)?;
    let samples = read_samples(bytes)?;
    let sums = read_sums(bytes)?;
    let set_day = read_set_day(bytes, head.day, sums.register.pulses)?;
    let months = read_months(bytes, head.day, sums.register.pulses)?;
    check_unused(bytes)?;
    check_tail(bytes)?;
    Ok(MeterRecord {
        seq: head.seq,
        day: head.day,
        samples,
        faulty: sums.faulty,
        register: sums.register,
        months,
        set_day,
    })
}

fn read_head(bytes: &[u8]) -> Result<Head, Foreign>
    requires { length bytes.now ≡ slot_size }
    ensures { Gives head_view result (checked head_fields bytes.now (head_of bytes.now)) }
{
    let seq = u64_at(bytes, 0);
    if seq > MAX_EVENTS {
        return Err(Foreign { at: 0 });
    }
    let number = u16_at(bytes, 8);
    if !is_day(number) {
        return Err(Foreign { at: 8 });
    }
    if u8_at(bytes, 10) > 1 {
        return Err(Foreign { at: 10 });
    }
    if usize::from(u8_at(bytes, 11)) > KEPT_MONTHS {
        return Err(Foreign { at: 11 });
    }
    if u8_at(bytes, 12) > 1 {
        return Err(Foreign { at: 12 });
    }
    if !is_blank(&bytes[13..16]) {
        return Err(Foreign { at: 13 });
    }
    Ok(Head {
        seq,
        day: Day { number },
    })
}

#[tactic(auto, unfolding(memory_model::specs::Slot::samples_of))]
fn read_samples(bytes: &[u8]) -> Result<Option<(u32, u32)>, Foreign>
    requires { length bytes.now ≡ slot_size }
    ensures { Gives (λ s. s) result (checked sample_fields bytes.now (samples_of bytes.now)) }
{
    let flow = u32_at(bytes, 16);
    let ret = u32_at(bytes, 20);
    if u8_at(bytes, 10) == 1 {
        return Ok(Some((flow, ret)));
    }
    if flow != 0 {
        return Err(Foreign { at: 16 });
    }
    if ret != 0 {
        return Err(Foreign { at: 20 });
    }
    Ok(None)
}

fn read_sums(bytes: &[u8]) -> Result<Sums, Foreign>
    requires { length bytes.now ≡ slot_size }
    ensures { Gives sums_view result (checked sum_fields bytes.now (sums_of bytes.now)) }
{
    let faulty = u64_at(bytes, 24);
    if faulty > MAX_PULSES {
        return Err(Foreign { at: 24 });
    }
    let pulses = u64_at(bytes, 32);
    if pulses > MAX_PULSES || pulses < faulty {
        return Err(Foreign { at: 32 });
    }
    let energy_mj = i128_at(bytes, 40);
    if !is_energy_of(pulses, energy_mj) {
        return Err(Foreign { at: 40 });
    }
    let bound_mj = u128_at(bytes, 56);
    if !is_bound_of(pulses, bound_mj) {
        return Err(Foreign { at: 56 });
    }
    Ok(Sums {
        faulty,
        register: Register {
            pulses,
            energy_mj,
            bound_mj,
        },
    })
}

#[tactic(auto, unfolding(memory_model::specs::Slot::set_day_keeps, memory_model::specs::Slot::set_day_of))]
fn read_set_day(bytes: &[u8], day: Day, record_pulses: u64) -> Result<Option<Entry>, Foreign>
    requires size { length bytes.now ≡ slot_size }
    requires day { day.number ≡ number 8 2 bytes.now }
    requires pulses { record_pulses ≡ number 32 8 bytes.now }
    requires few { record_pulses ≤ max_pulses }
    ensures { Gives set_day_view result (checked set_day_fields bytes.now (set_day_of bytes.now)) }
{
    let part = &bytes[72..120];
    if u8_at(bytes, 12) != 1 {
        return if is_blank(part) {
            Ok(None)
        } else {
            Err(Foreign { at: 72 })
        };
    }
    match read_entry(part, record_pulses) {
        Some(entry) if entry.day.number <= day.number => Ok(Some(entry)),
        _ => Err(Foreign { at: 72 }),
    }
}

// The month entries that the record counts.
fn read_months(
    bytes: &[u8],
    day: Day,
    record_pulses: u64,
) -> Result<ArrayVec<Entry, KEPT_MONTHS>, Foreign>
    requires size { length bytes.now ≡ slot_size }
    requires day { day.number ≡ number 8 2 bytes.now }
    requires pulses { record_pulses ≡ number 32 8 bytes.now }
    requires few { record_pulses ≤ max_pulses }
    requires count { number 11 1 bytes.now ≤ max_months }
    ensures read { ReadsMonths (λ months. entries_view months.items) (number 11 1 bytes.now) bytes.now result }
    ensures room { IfOk result (λ months. array_vec_len months ≤ max_months) }
{
    let count = usize::from(u8_at(bytes, 11));
    let mut months = ArrayVec::new();
    for k in 0..count {
        match read_month(bytes, months.as_slice(), day, record_pulses) {
            Some(entry) => months.push(entry),
            None => {
                return Err(Foreign {
                    at: (120 + ENTRY_SIZE * k) as u32,
                });
            }
        }
    }
    Ok(months)
}

// The month entry behind those before it, and None where it breaks a rule.
fn read_month(bytes: &[u8], before: &[Entry], day: Day, record_pulses: u64) -> Option<Entry>
    requires size { length bytes.now ≡ slot_size }
    requires day { day.number ≡ number 8 2 bytes.now }
    requires pulses { record_pulses ≡ number 32 8 bytes.now }
    requires few { record_pulses ≤ max_pulses }
    requires counted { length before.now < number 11 1 bytes.now }
    requires count { number 11 1 bytes.now ≤ max_months }
    requires before { entries_view before.now ≡ entries_to (length before.now) bytes.now }
    ensures { ReadsMonth (length before.now) bytes.now result }
{
    let k = before.len();
    let entry = match read_entry(month_part(bytes, k), record_pulses) {
        Some(entry) => entry,
        None => return None,
    };
    if !goes_on(before, &entry) {
        return None;
    }
    if !ends_right(bytes, k, &entry, day) {
        return None;
    }
    Some(entry)
}

fn month_part(bytes: &[u8], k: usize) -> &[u8]
    requires size { length bytes.now ≡ slot_size }
    requires place { k < max_months }
    ensures { result.now ≡ month_part k bytes.now }
{
    let at = 120 + ENTRY_SIZE * k;
    &bytes[at..at + ENTRY_SIZE]
}

// Each entry but the first goes on from the one before it.
fn goes_on(before: &[Entry], entry: &Entry) -> bool
    ensures { result ≡ goes_on_after (entries_view before.now) (entry_view entry.now) }
{
    if before.is_empty() {
        return true;
    }
    follows(&before[before.len() - 1], entry)
}

// The last entry has the first day of the month of the record's day.
#[tactic(auto, unfolding(memory_model::specs::Slot::ends_right))]
fn ends_right(bytes: &[u8], k: usize, entry: &Entry, day: Day) -> bool
    requires size { length bytes.now ≡ slot_size }
    requires place { k < max_months }
    requires entry { entry_view entry.now ≡ month_entry k bytes.now }
    requires day { day.number ≡ number 8 2 bytes.now }
    ensures { result ≡ ends_right k bytes.now }
{
    if k + 1 != usize::from(u8_at(bytes, 11)) {
        return true;
    }
    month_number(entry.day) == month_number(day)
}

// The later entry has the first day of the next month, and no fewer pulses.
#[tactic(auto, unfolding(memory_model::specs::Slot::follows))]
fn follows(earlier: &Entry, later: &Entry) -> bool
    ensures { result ≡ follows (entry_view earlier.now) (entry_view later.now) }
{
    month_number(later.day) == month_number(earlier.day) + 1
        && earlier.register.pulses <= later.register.pulses
}

// The places behind the month entries are blank.
fn check_unused(bytes: &[u8]) -> Result<(), Foreign>
    requires size { length bytes.now ≡ slot_size }
    requires count { number 11 1 bytes.now ≤ max_months }
    ensures { let count = number 11 1 bytes.now in Passes (month_fields count (max_months - count)) bytes.now result }
{
    for k in usize::from(u8_at(bytes, 11))..KEPT_MONTHS {
        if !is_blank(month_part(bytes, k)) {
            return Err(Foreign {
                at: (120 + ENTRY_SIZE * k) as u32,
            });
        }
    }
    Ok(())
}

fn check_tail(bytes: &[u8]) -> Result<(), Foreign>
    requires { length bytes.now ≡ slot_size }
    ensures { Passes (blank 1272 8 ∷ []) bytes.now result }
{
    if is_blank(&bytes[1272..SLOT_SIZE]) {
        Ok(())
    } else {
        Err(Foreign { at: 1272 })
    }
}
