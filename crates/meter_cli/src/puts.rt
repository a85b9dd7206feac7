//! Lines that are put, one by one.
ghost use Rattle.std.specs.Prelude.{◌≡◌, ◌<◌, length};
ghost use Rattle.meter_board.specs.Causes.{Rose};
ghost use Rattle.meter_cli.specs.Ends.{EndsLine};
ghost use Rattle.meter_cli.specs.Puts.{PutsLine, PutsLines};
ghost use Rattle.answer_lines.specs.Texts.{NoneEmpty, bytes_of};

use crate::status::Status;
use arrayvec::ArrayString;
use meter_board::{Board, Failed};

/// Puts a line.
pub fn put_line<B: Board>(board: &mut B, line: &[u8]) -> Status
    requires { 0 < length line.now }
    ensures puts { B.tells → PutsLine line.now (B.trace board.old) (B.trace board.new) result }
    ensures memory_untouched { B.memory_calls board.new ≡ B.memory_calls board.old }
    ensures write { result ≡ Status.Write → Rose (B.faults board.old).output (B.faults board.new).output }
    ensures kind { EndsLine result }
{
    match board.put(line) {
        Ok(()) => Status::Done,
        Err(Failed) => Status::Write,
    }
}

/// Puts these lines, up to the first that fails.
pub fn put_lines<B: Board, const ROOM: usize>(board: &mut B, lines: &[ArrayString<ROOM>]) -> Status
    requires { NoneEmpty lines.now }
    ensures puts { B.tells → PutsLines (bytes_of lines.now) (B.trace board.old) (B.trace board.new) result }
    ensures memory_untouched { B.memory_calls board.new ≡ B.memory_calls board.old }
    ensures write { result ≡ Status.Write → Rose (B.faults board.old).output (B.faults board.new).output }
    ensures kind { EndsLine result }
{
    for line in lines {
        match board.put(line.as_str().as_bytes()) {
            Ok(()) => {}
            Err(Failed) => return Status::Write,
        }
    }
    Status::Done
}
