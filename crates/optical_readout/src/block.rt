//! The block of a data message: what the meter has counted, line by line.
ghost use Rattle.std.specs.Prelude.{◌≡◌, ◌+◌, ◌<◌, ◌≤◌, ◌++◌, ◌*◌, length, reverse, List, ℕ};
ghost use Rattle.std.specs.Option.{option_to_list};
ghost use Rattle.metering_model.specs.Limits.{max_months};
ghost use Rattle.arrayvec.specs.ArrayVec.{array_vec_len};
ghost use Rattle.calendar_model.specs.Texts.{IsDayText};
ghost use Rattle.optical_model.specs.Messages.{AreEntryLines, IsBlock, entry_lines, first_lines};
ghost use Rattle.billing_memory.specs.Entries.{entries_view, set_day_view};
ghost use Rattle.billing_memory.specs.Records.{record_view};
ghost use Rattle.energy_register.specs.Register.{register_view};
ghost use Rattle.meter_config.specs.Views.{config_view};
ghost use Rattle.optical_readout.specs.Appends.{Appends, IsDated};

use crate::head::REPLY_ROOM;
use crate::push::{push_day, push_energy, push_mark, push_serial, push_volume};
use arrayvec::ArrayVec;
use billing_memory::{Day, Entry, MeterRecord};
use byte_lists::append;
use energy_register::Register;
use meter_config::Config;

/// Appends the block of a record.
pub(crate) fn push_block(message: &mut ArrayVec<u8, REPLY_ROOM>, c: &Config, m: &MeterRecord)
    requires { array_vec_len message.old ≤ 1 }
    ensures { Appends (IsBlock (config_view c.now) (record_view m.now)) 1824 message.old.items message.new.items }
{
    push_first_lines(message, c, &m.register, m.day);
    push_set_day(message, c, &m.set_day);
    push_months(message, c, m.months.as_slice());
}

// Appends the lines of the serial number, the registers and the day.
fn push_first_lines(
    message: &mut ArrayVec<u8, REPLY_ROOM>,
    c: &Config,
    register: &Register,
    day: Day,
)
    requires { array_vec_len message.old ≤ 1 }
    ensures { Appends (IsDated (first_lines (config_view c.now) (register_view register.now)) day.number) 74 message.old.items message.new.items }
{
    push_serial(message, c.serial);
    append(message, b"6.8");
    push_energy(message, c, register);
    append(message, b"6.26");
    push_volume(message, c, register);
    push_day(message, day.text().as_str());
}

// Appends the lines of the set day entry, marked 01, where there is one.
fn push_set_day(message: &mut ArrayVec<u8, REPLY_ROOM>, c: &Config, set_day: &Option<Entry>)
    requires { array_vec_len message.old ≤ 75 }
    ensures { Appends (AreEntryLines (config_view c.now) 1 (option_to_list (set_day_view set_day.now))) 70 message.old.items message.new.items }
{
    if let Some(entry) = set_day {
        push_entry(message, c, entry, 1);
    }
}

// Appends the lines of month entries, the last one first, marked from 02 on.
fn push_months(message: &mut ArrayVec<u8, REPLY_ROOM>, c: &Config, months: &[Entry])
    requires room { array_vec_len message.old ≤ 145 }
    requires few { length months.now ≤ max_months }
    ensures { Appends (AreEntryLines (config_view c.now) 2 (reverse (entries_view months.now))) 1680 message.old.items message.new.items }
{
    let mut mark = 2;
    for entry in months.iter().rev() {
        push_entry(message, c, entry, mark);
        mark += 1;
    }
}

// Appends the two lines of an entry with a mark below 100.
fn push_entry(message: &mut ArrayVec<u8, REPLY_ROOM>, c: &Config, entry: &Entry, mark: u8)
    requires room { array_vec_len message.old ≤ 1900 }
    requires two_digits { mark < 100 }
    ensures { Appends (IsDated (entry_lines (config_view c.now) (register_view entry.now.register) mark) entry.now.day.number) 70 message.old.items message.new.items }
{
    let day = entry.day.text();
    append(message, b"6.8");
    push_mark(message, mark, day.as_str());
    push_energy(message, c, &entry.register);
    append(message, b"6.26");
    push_mark(message, mark, day.as_str());
    push_volume(message, c, &entry.register);
}
