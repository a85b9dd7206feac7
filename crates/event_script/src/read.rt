//! What a line says.
ghost use Rattle.std.specs.Prelude.{◌≡◌, ◌≤◌, List, ℕ, length, Ok, Err, IfOk, IfSome, MatchResult};
ghost use Rattle.std.specs.Option.{ForSome, option_map};
ghost use Rattle.metering_model.specs.Limits.{max_pulses};
ghost use Rattle.metering_model.specs.Events as events;
ghost use Rattle.script_model.specs.Grammar as grammar;
ghost use Rattle.script_model.specs.Grammar.{line_of, sample_line, pulse_line, date_line, power_line, cut_line, opt_line, mbus_line, word_at, end_at};
ghost use Rattle.script_model.specs.Numbers.{number_in};
ghost use Rattle.script_model.specs.Hex.{byte_in, hex_in};
ghost use Rattle.event_script.specs.Views.{HasMessage, IsInRange, Reads, line_view, rest_words};

use crate::message::{Message, byte_word, message_word};
use crate::number::number_word;
use crate::words::split_word;
use crate::{Event, Grammar, Line};
use billing_memory::date_word;
use energy_register::MAX_PULSES;

/// The greatest sample, in microohms.
const MAX_SAMPLE: u64 = 4_294_967_295;

/// The latest store or sync, counted from a `cut` line on, that it can name.
const MAX_CALLS: u64 = 65_535;

/// The bytes of the memory.
const MEMORY_SIZE: u64 = 16_384;

/// Reads a line of a script, without its LF. It has at most 120 bytes. The bytes of an `opt` or `mbus` line go into
/// `message`.
///
/// # Errors
/// [`Grammar`] exactly outside the grammar of lines, with the place of the first wrong, missing or extra word.
pub fn read_line(line: &[u8], message: &mut Message) -> Result<Line, Grammar>
    requires { length line.now ≤ 120 }
    ensures said { Reads result message.new.items (line_of line.now) }
    ensures range { IfOk result IsInRange }
    ensures some { IfOk result (λ said. HasMessage said message.new.items) }
{
    match pulses_of(line) {
        Some(n) => Ok(Line::Metering(Event::Pulse { n })),
        None => read_words(line, message),
    }
}

// The pulses of a line `pulse N`, as most lines are. There is none where the line has a fault.
fn pulses_of(line: &[u8]) -> Option<u64>
    ensures said { IfSome result (λ n. line_of line.now ≡ Ok (grammar.Metering (events.Pulse n))) }
    ensures range { IfSome result (λ n. (1 ≤ n) × (n ≤ max_pulses)) }
{
    match line.strip_prefix(b"pulse ".as_slice()) {
        Some(word) => number_word(word, 1, MAX_PULSES),
        None => None,
    }
}

// Reads a line word by word. Most lines are read in one go, so it stays a call.
#[inline(never)]
fn read_words(line: &[u8], message: &mut Message) -> Result<Line, Grammar>
    requires { length line.now ≤ 120 }
    ensures said { Reads result message.new.items (line_of line.now) }
    ensures range { IfOk result IsInRange }
    ensures some { IfOk result (λ said. HasMessage said message.new.items) }
{
    let (name, words) = split_word(line);
    if name == b"sample".as_slice() {
        read_sample(words)
    } else if name == b"pulse".as_slice() {
        read_pulse(words)
    } else if name == b"date".as_slice() {
        read_date(words)
    } else if name == b"power".as_slice() {
        read_power(words)
    } else if name == b"cut".as_slice() {
        read_cut(words)
    } else if name == b"opt".as_slice() {
        read_opt(words, message)
    } else if name == b"mbus".as_slice() {
        read_mbus(words, message)
    } else {
        Err(Grammar { at: 0 })
    }
}

// `sample RF RR`, from the word after the name on.
fn read_sample(words: Option<&[u8]>) -> Result<Line, Grammar>
    ensures range { IfOk result IsInRange }
    ensures said { (bytes : List ℕ) → Reads result bytes (sample_line (rest_words (option_map (λ r. r.now) words.entry))) }
    ensures some { (bytes : List ℕ) → IfOk result (λ said. HasMessage said bytes) }
{
    let (rf, words) = number_at(words, 1, 0, MAX_SAMPLE)?;
    let (rr, words) = number_at(words, 2, 0, MAX_SAMPLE)?;
    let (rf, rr) = (rf as u32, rr as u32);
    whole_line(words, 3, Line::Metering(Event::Sample { rf, rr }))
}

// `pulse N`, from the word after the name on.
fn read_pulse(words: Option<&[u8]>) -> Result<Line, Grammar>
    ensures range { IfOk result IsInRange }
    ensures said { (bytes : List ℕ) → Reads result bytes (pulse_line (rest_words (option_map (λ r. r.now) words.entry))) }
    ensures some { (bytes : List ℕ) → IfOk result (λ said. HasMessage said bytes) }
{
    let (n, words) = number_at(words, 1, 1, MAX_PULSES)?;
    whole_line(words, 2, Line::Metering(Event::Pulse { n }))
}

// `date YYYY-MM-DD`, from the word after the name on.
fn read_date(words: Option<&[u8]>) -> Result<Line, Grammar>
    ensures range { IfOk result IsInRange }
    ensures said { (bytes : List ℕ) → Reads result bytes (date_line (rest_words (option_map (λ r. r.now) words.entry))) }
    ensures some { (bytes : List ℕ) → IfOk result (λ said. HasMessage said bytes) }
{
    let Some(rest) = words else {
        return Err(Grammar { at: 1 });
    };
    let (word, words) = split_word(rest);
    let Some(day) = date_word(word) else {
        return Err(Grammar { at: 1 });
    };
    whole_line(words, 2, Line::Metering(Event::Date { day }))
}

// `power`, from the word after the name on.
fn read_power(words: Option<&[u8]>) -> Result<Line, Grammar>
    ensures range { IfOk result IsInRange }
    ensures said { (bytes : List ℕ) → Reads result bytes (power_line (rest_words (option_map (λ r. r.now) words.entry))) }
    ensures some { (bytes : List ℕ) → IfOk result (λ said. HasMessage said bytes) }
{
    whole_line(words, 1, Line::Power)
}

// `cut N KEEP FILL`, from the word after the name on.
fn read_cut(words: Option<&[u8]>) -> Result<Line, Grammar>
    ensures range { IfOk result IsInRange }
    ensures said { (bytes : List ℕ) → Reads result bytes (cut_line (rest_words (option_map (λ r. r.now) words.entry))) }
    ensures some { (bytes : List ℕ) → IfOk result (λ said. HasMessage said bytes) }
{
    let (n, words) = number_at(words, 1, 1, MAX_CALLS)?;
    let (keep, words) = number_at(words, 2, 0, MEMORY_SIZE)?;
    let (fill, words) = byte_at(words, 3)?;
    let (n, keep) = (n as u16, keep as u16);
    whole_line(words, 4, Line::Cut { n, keep, fill })
}

// `opt HEX`, from the word after the name on.
fn read_opt(words: Option<&[u8]>, message: &mut Message) -> Result<Line, Grammar>
    requires { ForSome words (λ rest. length rest.now ≤ 116) }
    ensures said { Reads result message.new.items (opt_line (rest_words (option_map (λ r. r.now) words.entry))) }
    ensures range { IfOk result IsInRange }
    ensures some { IfOk result (λ said. HasMessage said message.new.items) }
{
    let words = first_message(words, message)?;
    whole_line(words, 2, Line::Opt)
}

// `mbus HEX`, from the word after the name on.
fn read_mbus(words: Option<&[u8]>, message: &mut Message) -> Result<Line, Grammar>
    requires { ForSome words (λ rest. length rest.now ≤ 116) }
    ensures said { Reads result message.new.items (mbus_line (rest_words (option_map (λ r. r.now) words.entry))) }
    ensures range { IfOk result IsInRange }
    ensures some { IfOk result (λ said. HasMessage said message.new.items) }
{
    let words = first_message(words, message)?;
    whole_line(words, 2, Line::Mbus)
}

// The number from `low` to `high` that the word at a place says, and what follows that word.
fn number_at(
    words: Option<&[u8]>,
    at: u8,
    low: u64,
    high: u64,
) -> Result<(u64, Option<&[u8]>), Grammar>
    ensures said { MatchResult result
        (λ n. word_at at (number_in low high) (rest_words (option_map (λ r. r.now) words.entry))
        ≡ Ok (n.0, rest_words (option_map (λ r. r.now) n.1)))
        (λ e. word_at at (number_in low high) (rest_words (option_map (λ r. r.now) words.entry)) ≡ Err e.at) }
    ensures range { IfOk result (λ n. (low ≤ n.0) × (n.0 ≤ high)) }
{
    let Some(rest) = words else {
        return Err(Grammar { at });
    };
    let (word, words) = split_word(rest);
    match number_word(word, low, high) {
        Some(n) => Ok((n, words)),
        None => Err(Grammar { at }),
    }
}

// The byte that the word at a place says, and what follows that word.
fn byte_at(words: Option<&[u8]>, at: u8) -> Result<(u8, Option<&[u8]>), Grammar>
    ensures { MatchResult result
        (λ b. word_at at byte_in (rest_words (option_map (λ r. r.now) words.entry))
        ≡ Ok (b.0, rest_words (option_map (λ r. r.now) b.1)))
        (λ e. word_at at byte_in (rest_words (option_map (λ r. r.now) words.entry)) ≡ Err e.at) }
{
    let Some(rest) = words else {
        return Err(Grammar { at });
    };
    let (word, words) = split_word(rest);
    match byte_word(word) {
        Some(byte) => Ok((byte, words)),
        None => Err(Grammar { at }),
    }
}

// Takes the message that the word after the name says. Answers what follows that word.
fn first_message<'a>(
    words: Option<&'a [u8]>,
    message: &mut Message,
) -> Result<Option<&'a [u8]>, Grammar>
    requires { ForSome words (λ rest. length rest.now ≤ 116) }
    ensures said { MatchResult result
        (λ rest. word_at 1 hex_in (rest_words (option_map (λ r. r.now) words.entry))
        ≡ Ok (message.new.items, rest_words (option_map (λ r. r.now) rest)))
        (λ e. word_at 1 hex_in (rest_words (option_map (λ r. r.now) words.entry)) ≡ Err e.at) }
    ensures some { IfOk result (λ _. 1 ≤ length message.new.items) }
{
    let Some(rest) = words else {
        return Err(Grammar { at: 1 });
    };
    let (word, words) = split_word(rest);
    match message_word(word) {
        Some(said) => {
            *message = said;
            Ok(words)
        }
        None => Err(Grammar { at: 1 }),
    }
}

// The line, where no word stands at a place behind it.
#[tactic(auto, using(crate::proofs::Cuts::no_end))]
fn whole_line(words: Option<&[u8]>, at: u8, line: Line) -> Result<Line, Grammar>
    ensures said { (bytes : List ℕ) → Reads result bytes (end_at at (line_view line bytes) (rest_words (option_map (λ r. r.now) words.entry))) }
    ensures same { IfOk result (λ whole. whole ≡ line) }
{
    match words {
        Some(_) => Err(Grammar { at }),
        None => Ok(line),
    }
}
