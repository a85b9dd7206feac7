//! Data records of a telegram, appended to its body.
ghost use Rattle.std.specs.Prelude.{◌≡◌, ◌+◌, ◌*◌, ◌/◌, ◌%◌, ◌≤◌, ◌<◌, ◌++◌, ◌∷◌};
ghost use Rattle.arrayvec.specs.ArrayVec.{array_vec_len};
ghost use Rattle.telegram_model.specs.Telegram.{date_record, energy_record, entry_records, volume_record};
ghost use Rattle.telegram_model.specs.Telegram as model;
ghost use Rattle.telegram_model.specs.Values as values;
ghost use Rattle.billing_memory.specs.Entries.{entry_view};
ghost use Rattle.energy_register.specs.Register.{register_view};
ghost use Rattle.meter_config.specs.Views.{config_view};

use arrayvec::ArrayVec;
use billing_memory::{Day, Entry};
use byte_lists::append;
use energy_register::Register;
use meter_config::Config;

/// The most bytes of a body.
pub(crate) const ROOM: usize = 252;

// Data information fields (EN 13757-3): a date, a whole number of 32 bits, eight decimal digits.
const DATE: u8 = 0x02;

const INTEGER: u8 = 0x04;

const DIGITS: u8 = 0x0C;

// Value information fields: kWh and m³ without decimals, and a day.
const KILOWATT_HOURS: u8 = 0x06;

const CUBIC_METRES: u8 = 0x16;

const DAY: u8 = 0x6C;

/// Appends the energy that a register shows, with a storage number.
pub(crate) fn push_energy(
    body: &mut ArrayVec<u8, ROOM>,
    c: &Config,
    storage: u8,
    register: &Register,
)
    requires { array_vec_len body.old + 7 ≤ 252 }
    ensures items { body.new.items ≡ body.old.items ++ energy_record (config_view c.now) storage (register_view register.now) }
    ensures len { array_vec_len body.new ≤ array_vec_len body.old + 7 }
{
    let digits = register.energy_digits(c.energy_decimals);
    push_digits(body, KILOWATT_HOURS - c.energy_decimals, storage, digits);
}

/// Appends the volume that a register shows, with a storage number.
pub(crate) fn push_volume(
    body: &mut ArrayVec<u8, ROOM>,
    c: &Config,
    storage: u8,
    register: &Register,
)
    requires { array_vec_len body.old + 7 ≤ 252 }
    ensures items { body.new.items ≡ body.old.items ++ volume_record (config_view c.now) storage (register_view register.now) }
    ensures len { array_vec_len body.new ≤ array_vec_len body.old + 7 }
{
    let digits = register.volume_digits(c.per_pulse, c.volume_decimals);
    push_digits(body, CUBIC_METRES - c.volume_decimals, storage, digits);
}

// Appends the last eight digits of a number, under a value information field and with a storage number.
fn push_digits(body: &mut ArrayVec<u8, ROOM>, unit: u8, storage: u8, digits: u32)
    requires { array_vec_len body.old + 7 ≤ 252 }
    ensures items { body.new.items ≡ body.old.items ++ (values.information 12 storage ++ unit ∷ values.decimal_bytes digits) }
    ensures len { array_vec_len body.new ≤ array_vec_len body.old + 7 }
{
    push_information(body, DIGITS, storage);
    body.push(unit);
    append(body, &decimal_bytes(digits));
}

/// Appends a day, with a storage number.
pub(crate) fn push_date(body: &mut ArrayVec<u8, ROOM>, storage: u8, day: Day)
    requires { array_vec_len body.old + 5 ≤ 252 }
    ensures items { body.new.items ≡ body.old.items ++ date_record storage day.number }
    ensures len { array_vec_len body.new ≤ array_vec_len body.old + 5 }
{
    push_information(body, DATE, storage);
    body.push(DAY);
    append(body, &date_bytes(day));
}

/// Appends a temperature or a difference of two, in microdegrees, under a value information field.
pub(crate) fn push_temp(body: &mut ArrayVec<u8, ROOM>, unit: u8, microdegrees: i32)
    requires { array_vec_len body.old + 6 ≤ 252 }
    ensures items { body.new.items ≡ body.old.items ++ model.temp_record unit microdegrees }
    ensures len { array_vec_len body.new ≡ array_vec_len body.old + 6 }
{
    body.push(INTEGER);
    body.push(unit);
    append(body, &microdegrees.div_euclid(1_000).to_le_bytes());
}

/// Appends the day of an entry and what its register showed, with a storage number.
pub(crate) fn push_entry(body: &mut ArrayVec<u8, ROOM>, c: &Config, storage: u8, entry: &Entry)
    requires { array_vec_len body.old + 19 ≤ 252 }
    ensures items { body.new.items ≡ body.old.items ++ entry_records (config_view c.now) storage (entry_view entry.now) }
    ensures len { array_vec_len body.new ≤ array_vec_len body.old + 19 }
{
    push_date(body, storage, entry.day);
    push_energy(body, c, storage, &entry.register);
    push_volume(body, c, storage, &entry.register);
}

// Appends the information field of a kind of value with a storage number.
fn push_information(body: &mut ArrayVec<u8, ROOM>, kind: u8, storage: u8)
    requires room { array_vec_len body.old + 2 ≤ 252 }
    requires kind { kind < 64 }
    ensures items { body.new.items ≡ body.old.items ++ values.information kind storage }
    ensures len { array_vec_len body.new ≤ array_vec_len body.old + 2 }
{
    if storage < 2 {
        body.push(kind + 0x40 * storage);
    } else {
        body.push(kind + 0x80 + 0x40 * (storage % 2));
        body.push(storage / 2);
    }
}

/// The last eight digits of a number, two in a byte, the lowest first.
pub(crate) fn decimal_bytes(number: u32) -> [u8; 4]
    ensures { result ≡ values.decimal_bytes number }
{
    [
        two_digits(number),
        two_digits(number / 100),
        two_digits(number / 10_000),
        two_digits(number / 1_000_000),
    ]
}

fn two_digits(number: u32) -> u8
    ensures { result ≡ number % 10 + 16 * (number / 10 % 10) }
{
    (number % 10 + 16 * (number / 10 % 10)) as u8
}

// A day's date of type G.
fn date_bytes(day: Day) -> [u8; 2]
    ensures { result ≡ values.date_bytes day.number }
{
    let (year, month, day) = day.parts();
    let year = (year - 2000) as u8;
    [day + 32 * (year % 8), month + 16 * (year / 8 % 16)]
}
