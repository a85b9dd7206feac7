//! How a command ended, as a status with a number and a text.
ghost use Rattle.std.specs.Prelude.{◌≡◌, ◌+◌, ◌≤◌, ◌<◌, ◌++◌, ℕ, List, length, codes};
ghost use Rattle.std.specs.Char.{digit_char};
ghost use Rattle.std.specs.Fmt.{decimal};
ghost use Rattle.calendar_model.specs.Texts.{IsDayText};
ghost use Rattle.accept_model.specs.Keys.{name_of};
ghost use Rattle.meter_cli.specs.Status.{IsFaultText, IsStatusText, code_of, config_text, format_status, hex_byte, text_status, unreadable_status};

use arrayvec::ArrayString;
use billing_memory::Day;
use event_script::LineFault;
use itoa::Buffer;
use meter_config::{ConfigFault, key_name};
use register_store::{FormatFault, Unreadable};

/// The room of a status line.
pub const STATUS_ROOM: usize = 128;

/// How a command ended.
#[derive(Clone, Copy, Debug, PartialEq, Eq)]
pub enum Status {
    /// The command did all that it defines, and read its input to the end.
    Done,
    /// The words are no command; `word` is the place, from 0, of the first wrong, missing or extra word.
    Usage { word: usize },
    /// The text is not accepted as a configuration.
    Config { fault: ConfigFault },
    /// Line `n` of the script, counted from 1, is the first that is refused.
    Line { n: u32, kind: LineFault },
    /// The memory failed.
    Memory,
    /// The input failed.
    Read,
    /// The output failed.
    Write,
    /// The memory is not formatted: its first byte is this one and not the mark A5.
    Unformatted { byte: u8 },
    /// The field at this offset in the memory breaks its rule.
    Foreign { at: u32 },
    /// The memory is formatted already.
    Formatted,
    /// The program wants memory.
    OutOfMemory,
    /// The power was cut while the memory was written.
    Cut,
    /// The enthalpy of water may fall between two temperatures from `segment` to `segment + 1` °C.
    NotRising { segment: u8 },
    /// The bytes are no such readout: the place of the first of them that breaks a rule, or their number where too
    /// few are there.
    BadReadout { at: u32 },
}

/// The exit status of the program.
pub fn status_code(s: &Status) -> u8
    ensures { result ≡ code_of s.now }
{
    match s {
        Status::Done => 0,
        Status::Usage { .. } => 2,
        Status::Config { .. } => 3,
        Status::Line { .. } => 4,
        Status::Memory => 5,
        Status::Read => 6,
        Status::Write => 7,
        Status::Unformatted { .. } => 8,
        Status::Foreign { .. } => 9,
        Status::Formatted => 10,
        Status::OutOfMemory => 11,
        Status::Cut => 12,
        Status::BadReadout { .. } => 14,
        Status::NotRising { .. } => 16,
    }
}

/// The text that the program writes to standard error, empty for [`Status::Done`].
pub fn status_line(s: &Status) -> ArrayString<STATUS_ROOM>
    ensures { IsStatusText s.now result.bytes }
{
    match s {
        Status::Done => ArrayString::new(),
        Status::Usage { word } => numbered("usage: word ", *word as u64),
        Status::Config { fault } => config_line(*fault),
        Status::Line { n, kind } => fault_line(*n, kind),
        Status::Memory => fixed("memory fault"),
        Status::Read => fixed("read fault"),
        Status::Write => fixed("write fault"),
        Status::Unformatted { byte } => unformatted_line(*byte),
        Status::Foreign { at } => numbered("foreign at ", u64::from(*at)),
        Status::Formatted => fixed("already formatted"),
        Status::OutOfMemory => fixed("out of memory"),
        Status::Cut => fixed("power cut"),
        Status::NotRising { segment } => numbered("not rising at ", u64::from(*segment)),
        Status::BadReadout { at } => numbered("bad readout at ", u64::from(*at)),
    }
}

/// The status of a text that gives no configuration.
pub fn text_status(fault: ConfigFault) -> Status
    ensures { result ≡ text_status fault }
{
    match fault {
        ConfigFault::OutOfMemory => Status::OutOfMemory,
        fault => Status::Config { fault },
    }
}

/// The status of a memory that could not be read.
pub fn unreadable_status(reason: Unreadable) -> Status
    ensures { result ≡ unreadable_status reason }
{
    match reason {
        Unreadable::Unformatted { byte } => Status::Unformatted { byte },
        Unreadable::Foreign { at } => Status::Foreign { at },
        Unreadable::Memory => Status::Memory,
    }
}

/// The status of a memory that could not be formatted.
pub fn format_status(fault: FormatFault) -> Status
    ensures { result ≡ format_status fault }
{
    match fault {
        FormatFault::Formatted => Status::Formatted,
        FormatFault::Memory => Status::Memory,
        FormatFault::Cut => Status::Cut,
    }
}

fn config_line(fault: ConfigFault) -> ArrayString<STATUS_ROOM>
    ensures { result.bytes ≡ config_text fault }
{
    match fault {
        ConfigFault::TooLong => fixed("config: too long"),
        ConfigFault::Text => fixed("config: text"),
        ConfigFault::NotObject => fixed("config: not an object"),
        ConfigFault::Missing { key } => key_line("config: missing ", key),
        ConfigFault::Wrong { key } => key_line("config: wrong ", key),
        ConfigFault::Unknown { place } => numbered("config: unknown key ", u64::from(place)),
        ConfigFault::OutOfMemory => fixed("out of memory"),
    }
}

fn key_line(text: &str, key: u8) -> ArrayString<STATUS_ROOM>
    requires { length text.now ≤ 40 }
    ensures { result.bytes ≡ text.now ++ name_of key }
{
    let mut line = fixed(text);
    line.push_str(key_name(key));
    line
}

fn unformatted_line(byte: u8) -> ArrayString<STATUS_ROOM>
    ensures { result.bytes ≡ codes "not formatted: " ++ hex_byte byte }
{
    let mut line = fixed("not formatted: ");
    line.push(hex_digit(byte / 16));
    line.push(hex_digit(byte % 16));
    line
}

fn hex_digit(digit: u8) -> char
    requires { digit < 16 }
    ensures { result ≡ digit_char digit }
{
    char::from(if digit < 10 {
        b'0' + digit
    } else {
        b'a' + (digit - 10)
    })
}

fn fault_line(n: u32, kind: &LineFault) -> ArrayString<STATUS_ROOM>
    ensures { (fault : List ℕ) × IsFaultText kind.now fault × (result.bytes ≡ codes "line " ++ decimal n ++ fault) }
{
    let mut line = numbered("line ", u64::from(n));
    line.push_str(fault_text(kind).as_str());
    line
}

fn fault_text(kind: &LineFault) -> ArrayString<STATUS_ROOM>
    ensures text { IsFaultText kind.now result.bytes }
    ensures short { length result.bytes ≤ 40 }
{
    match kind {
        LineFault::Grammar { at } => numbered(": word ", u64::from(*at)),
        LineFault::DateBack { in_force } => before_day(*in_force),
        LineFault::PulsesFull { sum } => numbered(": pulses ", *sum),
        LineFault::EventsFull { seq } => numbered(": events ", *seq),
        LineFault::TooLong => fixed(": too long"),
        LineFault::TooMany => fixed(": too many"),
        LineFault::NotDry => fixed(": not in dry"),
    }
}

fn before_day(in_force: Day) -> ArrayString<STATUS_ROOM>
    ensures text { (day : List ℕ) × IsDayText in_force.number day × (result.bytes ≡ codes ": date before " ++ day) }
    ensures short { length result.bytes ≤ 40 }
{
    let mut line = fixed(": date before ");
    line.push_str(in_force.text().as_str());
    line
}

fn fixed(text: &str) -> ArrayString<STATUS_ROOM>
    requires { length text.now ≤ 40 }
    ensures { result.bytes ≡ text.now }
{
    let mut line = ArrayString::new();
    line.push_str(text);
    line
}

fn numbered(text: &str, n: u64) -> ArrayString<STATUS_ROOM>
    requires { length text.now ≤ 20 }
    ensures bytes { result.bytes ≡ text.now ++ decimal n }
    ensures short { length result.bytes ≤ 40 }
{
    let mut line = ArrayString::new();
    push_numbered(&mut line, text, n);
    line
}

fn push_numbered(line: &mut ArrayString<STATUS_ROOM>, text: &str, n: u64)
    requires line { length line.old.bytes ≤ 40 }
    requires text { length text.now ≤ 20 }
    ensures bytes { line.new.bytes ≡ line.old.bytes ++ (text.now ++ decimal n) }
    ensures short { length line.new.bytes ≤ length line.old.bytes + length text.now + 20 }
{
    let mut digits = Buffer::new();
    line.push_str(text);
    line.push_str(digits.format(n));
}
