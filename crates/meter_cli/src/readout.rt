//! The commands that read readouts.
ghost use Rattle.std.specs.Prelude.{◌≡◌, ◌≤◌, ◌+◌, ◌++◌, ℕ, List, length};
ghost use Rattle.reading_model.specs.Messages.{message_in};
ghost use Rattle.reading_model.specs.Telegrams.{telegram_in};
ghost use Rattle.trace_model.specs.Output.{PutsAlone};
ghost use Rattle.trace_model.specs.Trace.{base_of};
ghost use Rattle.readout_reader.specs.Reading.{Reads};
ghost use Rattle.readout_reader.specs.Views.{message_view, telegram_view};
ghost use Rattle.meter_board.specs.Causes.{Rose};
ghost use Rattle.meter_cli.specs.Ends.{EndsRead, EndsUnread};
ghost use Rattle.meter_cli.specs.Read.{ReadAnswers, ReadLeaves};
ghost use Rattle.answer_lines.specs.ReadLines.{AreMessageLines, AreTelegramLines};

use crate::init::fill;
use crate::puts::put_lines;
use crate::status::Status;
use answer_lines::{message_lines, telegram_lines};
use meter_board::{Board, Failed, Source};
use readout_reader::{BadPlace, MbusFields, OpticalFields, read_mbus, read_optical};

/// How many bytes of the source are read for a telegram: one more than the longest has.
const TELEGRAM_BYTES: usize = 262;

/// How many are read for a data message: one more than the 2,048 that a message may have.
const MESSAGE_BYTES: usize = 2_049;

/// Puts what the telegram says that the source tells (EN 13757-2 and -3), one line by each put: the header, the
/// records in their order, and whether a further telegram follows.
pub fn mbus<S: Source, B: Board>(source: &mut S, board: &mut B) -> Status
    ensures leaves { S.tells → B.tells → ReadLeaves AreTelegramLines (telegram_in (S.left source.old)) (B.trace board.old) (B.trace board.new) result }
    ensures answers { S.tells → ReadAnswers (telegram_in (S.left source.old)) result }
    ensures alone { B.tells → PutsAlone (B.trace board.old) → PutsAlone (B.trace board.new) }
    ensures base { B.tells → base_of (B.trace board.new) ≡ base_of (B.trace board.old) }
    ensures reads { S.tells → length (S.left source.old) ≤ length (S.left source.new) + TELEGRAM_BYTES }
    ensures untouched { EndsUnread result → board.new ≡ board.old }
    ensures memory_untouched { B.memory_calls board.new ≡ B.memory_calls board.old }
    ensures read { result ≡ Status.Read → Rose (S.faults source.old) (S.faults source.new) }
    ensures write { result ≡ Status.Write → Rose (B.faults board.old).output (B.faults board.new).output }
    ensures ends { EndsRead result }
{
    let mut bytes = [0; TELEGRAM_BYTES];
    match fill(source, &mut bytes) {
        Ok(len) => match telegram(&bytes[..len]) {
            Ok(fields) => put_lines(board, telegram_lines(&fields).as_slice()),
            Err(e) => Status::BadReadout { at: e.at },
        },
        Err(Failed) => Status::Read,
    }
}

/// Puts what the data message says that the source tells (IEC 62056-21), one line by each put: the serial number, the
/// energy, the volume and the day, and the entries in their order.
pub fn optical<S: Source, B: Board>(source: &mut S, board: &mut B) -> Status
    ensures leaves { S.tells → B.tells → ReadLeaves AreMessageLines (message_in (S.left source.old)) (B.trace board.old) (B.trace board.new) result }
    ensures answers { S.tells → ReadAnswers (message_in (S.left source.old)) result }
    ensures alone { B.tells → PutsAlone (B.trace board.old) → PutsAlone (B.trace board.new) }
    ensures base { B.tells → base_of (B.trace board.new) ≡ base_of (B.trace board.old) }
    ensures reads { S.tells → length (S.left source.old) ≤ length (S.left source.new) + MESSAGE_BYTES }
    ensures untouched { EndsUnread result → board.new ≡ board.old }
    ensures memory_untouched { B.memory_calls board.new ≡ B.memory_calls board.old }
    ensures read { result ≡ Status.Read → Rose (S.faults source.old) (S.faults source.new) }
    ensures write { result ≡ Status.Write → Rose (B.faults board.old).output (B.faults board.new).output }
    ensures ends { EndsRead result }
{
    let mut bytes = [0; MESSAGE_BYTES];
    match fill(source, &mut bytes) {
        Ok(len) => match message(&bytes[..len]) {
            Ok(fields) => put_lines(board, message_lines(&fields).as_slice()),
            Err(place) => Status::BadReadout { at: place.at },
        },
        Err(Failed) => Status::Read,
    }
}

// What the bytes say, or the place of the first that breaks a rule. Where there are 262, none behind them matters.
fn telegram(bytes: &[u8]) -> Result<MbusFields, BadPlace>
    ensures said { Reads telegram_view result (telegram_in bytes.now) }
    ensures decides { (rest : List ℕ) → TELEGRAM_BYTES ≤ length bytes.now → telegram_in (bytes.now ++ rest) ≡ telegram_in bytes.now }
{
    read_mbus(bytes)
}

// The same of a data message, where there are 2,049.
fn message(bytes: &[u8]) -> Result<OpticalFields, BadPlace>
    ensures said { Reads message_view result (message_in bytes.now) }
    ensures decides { (rest : List ℕ) → MESSAGE_BYTES ≤ length bytes.now → message_in (bytes.now ++ rest) ≡ message_in bytes.now }
{
    read_optical(bytes)
}
