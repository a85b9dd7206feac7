//! The command `show`.
ghost use Rattle.std.specs.Prelude.{◌≡◌};
ghost use Rattle.meter_board.specs.Causes.{Rose};
ghost use Rattle.meter_cli.specs.Ends.{EndsShow};
ghost use Rattle.meter_cli.specs.Show.{ShowLeaves};

use crate::puts::put_lines;
use crate::status::{Status, unreadable_status};
use answer_lines::show_lines;
use meter_board::Board;
use register_store::recover;

/// Puts what the memory holds, one line by each put: the serial number, the day, the number of events, the
/// volume, the energy, the register, the faulty pulses, the set day's entry, and the month entries, oldest first.
pub fn show<B: Board>(board: &mut B) -> Status
    ensures leaves { B.tells → ShowLeaves (B.reads board.old) (B.trace board.old) (B.trace board.new) result }
    ensures memory { result ≡ Status.Memory → Rose (B.faults board.old).memory (B.faults board.new).memory }
    ensures write { result ≡ Status.Write → Rose (B.faults board.old).output (B.faults board.new).output }
    ensures ends { EndsShow result }
{
    match recover(board) {
        Ok((config, meter_record, _)) => put_lines(
            board,
            show_lines(&config, &meter_record).as_slice(),
        ),
        Err(reason) => unreadable_status(reason),
    }
}
