//! The lines that show what a memory holds.
ghost use Rattle.std.specs.Prelude.{◌≡◌, ◌<◌, ◌≤◌, ◌+◌, ◌++◌, List, ℕ, codes, length};
ghost use Rattle.answer_model.specs.Texts.{register_shown};
ghost use Rattle.show_model.specs.Lines.{AreMonthLines, AreShowLines, AreStateLines, IsEntryLine, IsSetLine, energy_display, volume_display};
ghost use Rattle.energy_register.specs.Register.{register_view};
ghost use Rattle.billing_memory.specs.Entries.{entries_view, entry_view, set_day_view};
ghost use Rattle.billing_memory.specs.Records.{record_view};
ghost use Rattle.meter_config.specs.Views.{config_view};
ghost use Rattle.arrayvec.specs.ArrayVec.{array_vec_len};
ghost use Rattle.answer_lines.specs.Texts.{NoneEmpty, bytes_of};

use crate::line::{LINE_ROOM, labelled};
use arrayvec::{ArrayString, ArrayVec};
use billing_memory::{Entry, MeterRecord};
use energy_register::{Register, digits_text};
use itoa::Buffer;
use meter_config::Config;

/// The most lines: eight, and one for each month entry.
const MAX_LINES: usize = 32;

/// The lines that show a configuration and a record, the month entries oldest first.
pub fn show_lines(
    config: &Config,
    meter_record: &MeterRecord,
) -> ArrayVec<ArrayString<LINE_ROOM>, MAX_LINES>
    ensures lines { AreShowLines (config_view config.now) (record_view meter_record.now) (bytes_of result.items) }
    ensures some { NoneEmpty result.items }
{
    let mut lines = state_lines(config, meter_record);
    push_months(&mut lines, config, meter_record.months.as_slice());
    lines
}

// The lines before those of the month entries.
fn state_lines(
    config: &Config,
    meter_record: &MeterRecord,
) -> ArrayVec<ArrayString<LINE_ROOM>, MAX_LINES>
    ensures lines { AreStateLines (config_view config.now) (record_view meter_record.now) (bytes_of result.items) }
    ensures count { array_vec_len result ≡ 8 }
    ensures some { NoneEmpty result.items }
{
    let register = &meter_record.register;
    let mut digits = Buffer::new();
    let mut lines = ArrayVec::new();
    lines.push(labelled("serial ", digits_text(config.serial, 0).as_str(), "\n"));
    lines.push(labelled("day ", meter_record.day.text().as_str(), "\n"));
    lines.push(labelled("seq ", digits.format(meter_record.seq), "\n"));
    lines.push(labelled("volume ", volume_text(config, register).as_str(), " m3\n"));
    lines.push(labelled("energy ", energy_text(config, register).as_str(), " kWh\n"));
    lines.push(register_line(config, register));
    lines.push(labelled("faulty ", digits.format(meter_record.faulty), "\n"));
    lines.push(set_line(config, &meter_record.set_day));
    lines
}

// Adds the lines of the month entries.
fn push_months(
    lines: &mut ArrayVec<ArrayString<LINE_ROOM>, MAX_LINES>,
    config: &Config,
    months: &[Entry],
)
    requires { array_vec_len lines.old + length months.now ≤ MAX_LINES }
    ensures lines { (shown : List (List ℕ)) × AreMonthLines (config_view config.now) (entries_view months.now) shown × (bytes_of lines.new.items ≡ bytes_of lines.old.items ++ shown) }
    ensures some { NoneEmpty lines.old.items → NoneEmpty lines.new.items }
{
    for entry in months {
        lines.push(entry_line("month", config, entry));
    }
}

// What the display shows of the volume in m³.
fn volume_text(config: &Config, register: &Register) -> ArrayString<9>
    ensures { result.bytes ≡ volume_display (config_view config.now) (register_view register.now) }
{
    let digits = register.volume_digits(config.per_pulse, config.volume_decimals);
    digits_text(digits, config.volume_decimals)
}

// What the display shows of the energy in kWh.
fn energy_text(config: &Config, register: &Register) -> ArrayString<9>
    ensures { result.bytes ≡ energy_display (config_view config.now) (register_view register.now) }
{
    let digits = register.energy_digits(config.energy_decimals);
    digits_text(digits, config.energy_decimals)
}

fn register_line(config: &Config, register: &Register) -> ArrayString<LINE_ROOM>
    ensures { result.bytes ≡ codes "register " ++ register_shown config.now.per_pulse (register_view register.now) ++ codes "\n" }
{
    let mut line = ArrayString::new();
    line.push_str("register ");
    push_register(&mut line, config, register);
    line.push_str("\n");
    line
}

// The line of the set day's entry.
fn set_line(config: &Config, set_day: &Option<Entry>) -> ArrayString<LINE_ROOM>
    ensures text { IsSetLine (config_view config.now) (set_day_view set_day.now) result.bytes }
    ensures some { 0 < length result.bytes }
{
    match set_day {
        None => labelled("set ", "-", "\n"),
        Some(entry) => entry_line("set", config, entry),
    }
}

fn entry_line(name: &str, config: &Config, entry: &Entry) -> ArrayString<LINE_ROOM>
    requires { length name.now ≤ 10 }
    ensures text { IsEntryLine name.now (config_view config.now) (entry_view entry.now) result.bytes }
    ensures some { 0 < length result.bytes }
{
    let mut line = ArrayString::new();
    line.push_str(name);
    line.push_str(" ");
    line.push_str(entry.day.text().as_str());
    line.push_str(" ");
    push_register(&mut line, config, &entry.register);
    line.push_str("\n");
    line
}

/// Adds `VOL E B`: litres, and the energy and its bound in millijoules.
pub fn push_register(line: &mut ArrayString<LINE_ROOM>, config: &Config, register: &Register)
    requires { length line.old.bytes ≤ 60 }
    ensures bytes { line.new.bytes ≡ line.old.bytes ++ register_shown config.now.per_pulse (register_view register.now) }
    ensures short { length line.new.bytes ≤ length line.old.bytes + 122 }
{
    let mut digits = Buffer::new();
    line.push_str(digits.format(register.litres(config.per_pulse)));
    line.push_str(" ");
    line.push_str(digits.format(register.energy_mj));
    line.push_str(" ");
    line.push_str(digits.format(register.bound_mj));
}
