//! The command `cert`.
ghost use Rattle.std.specs.Prelude.{◌≡◌, ◌<◌, length};
ghost use Rattle.slope_model.specs.Slope.{EnthalpyRises};
ghost use Rattle.meter_board.specs.Causes.{Rose};
ghost use Rattle.command_words.specs.Command.{IsPressure};
ghost use Rattle.meter_cli.specs.Cert.{CertLeaves, slope_text};
ghost use Rattle.meter_cli.specs.Ends.{EndsCert};

use crate::puts::put_line;
use crate::status::Status;
use arrayvec::ArrayString;
use itoa::Buffer;
use meter_board::{Board, Failed};
use slope_cert::{Incline, PressureVariable, slope_at};

/// The room of a line: two numbers of 40 digits, and one of 3.
const SLOPE_ROOM: usize = 128;

/// The degrees from 0 to 180 °C.
const SEGMENTS: u8 = 180;

/// Puts for each degree from 0 to 180 °C the range of the slope of the enthalpy of water at 1,100 to 4,000 kPa, in
/// 10^-9 kJ/(kg K), up to the first degree in which it may fall, and then `yes`: the enthalpy rises everywhere.
pub fn cert<B: Board>(board: &mut B, p_kpa: u32) -> Status
    requires { IsPressure p_kpa }
    ensures leaves { B.tells → CertLeaves p_kpa (B.trace board.old) (B.trace board.new) result }
    ensures rises { result ≡ Status.Done → EnthalpyRises p_kpa }
    ensures memory_untouched { B.memory_calls board.new ≡ B.memory_calls board.old }
    ensures write { result ≡ Status.Write → Rose (B.faults board.old).output (B.faults board.new).output }
    ensures kind { EndsCert result }
{
    let pressure = PressureVariable::at(p_kpa);
    for segment in 0..SEGMENTS {
        let range = slope_at(&pressure, segment);
        let line = slope_line(segment, &range);
        match board.put(line.as_str().as_bytes()) {
            Ok(()) => {}
            Err(Failed) => return Status::Write,
        }
        if range.lo <= 0 {
            return Status::NotRising { segment };
        }
    }
    put_line(board, b"yes\n")
}

fn slope_line(segment: u8, range: &Incline) -> ArrayString<SLOPE_ROOM>
    ensures text { result.bytes ≡ slope_text segment range.now.lo range.now.hi }
    ensures some { 0 < length result.bytes }
{
    let mut digits = Buffer::new();
    let mut line = ArrayString::new();
    line.push_str("slope ");
    line.push_str(digits.format(segment));
    line.push_str(" ");
    line.push_str(digits.format(range.lo));
    line.push_str(" ");
    line.push_str(digits.format(range.hi));
    line.push_str("\n");
    line
}
