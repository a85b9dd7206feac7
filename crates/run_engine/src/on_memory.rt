//! The command `run`.
ghost use Rattle.std.specs.Prelude.{◌≡◌, ◌+◌, ◌-◌, ◌^◌, ◌≤◌, ℕ, [], length, min};
ghost use Rattle.trace_model.specs.Trace.{IsFresh, base_of};
ghost use Rattle.trace_model.specs.Output.{output_lines};
ghost use Rattle.script_model.specs.Lines.{lines_of};
ghost use Rattle.config_model.specs.Configuration.{Configuration};
ghost use Rattle.metering_model.specs.Records as metering;
ghost use Rattle.memory_model.specs.Stored as model;
ghost use Rattle.memory_model.specs.Stored.{Holds, stored};
ghost use Rattle.pairing_model.specs.Setup.{on_memory};
ghost use Rattle.pairing_model.specs.Journal.{Journal, at_start};
ghost use Rattle.pairing_model.specs.Pairing.{Pairs};
ghost use Rattle.meter_board.specs.Causes.{Rose};
ghost use Rattle.run_engine.specs.Outcome.{IsDoneOrRefused, StopsAtRead};
ghost use Rattle.run_engine.specs.OutcomeOnMemory.{OutcomeByMemory};

use crate::Ended;
use crate::answering::answer_lines;
use crate::station::Station;
use meter_board::{Board, Source};
use meter_core::Meter;
use register_store::recover;

/// Meters the events of a script over the memory of the board. Each event is taken by the record, then held by the
/// memory, whatever the power does from then on, and then answered by an output line. A readout is answered from
/// the record in force and what was heard since the start. Where the power fails, the record is recovered, which is
/// a start too, and told by a `power` line. The script is read after the memory was recovered.
pub fn run<S: Source, B: Board>(source: &mut S, board: &mut B) -> Ended
    requires { B.tells → IsFresh (B.trace board.old) }
    ensures leaves { S.tells → B.tells → OutcomeByMemory (stored (base_of (B.trace board.old))) (S.left source.old) (B.trace board.new) result }
    ensures complete { S.tells → B.tells → (c : Configuration) (o : metering.MeterRecord) (side : model.Side) → stored (base_of (B.trace board.old)) ≡ Holds c o side
        → ¬ Rose (S.faults source.old) (S.faults source.new) → ¬ Rose (B.faults board.old).memory (B.faults board.new).memory → ¬ Rose (B.faults board.old).output (B.faults board.new).output
        → IsDoneOrRefused result }
    ensures few_lost { S.tells → B.tells → (c : Configuration) (o : metering.MeterRecord) (side : model.Side) (j : Journal) → stored (base_of (B.trace board.old)) ≡ Holds c o side
        → Pairs (on_memory c) o 0 at_start (lines_of (S.left source.old)) (output_lines (B.trace board.new)) j → min ((B.faults board.old).cuts + j.interrupted) (2 ^ 64 - 1) ≤ (B.faults board.new).cuts }
    ensures base { B.tells → base_of (B.trace board.new) ≡ base_of (B.trace board.old) }
    ensures end { S.tells → B.tells → result ≡ Ended.Done → S.left source.new ≡ [] }
    ensures delivered { S.tells → B.tells → result ≡ Ended.Read → StopsAtRead (S.left source.old) (S.left source.new) (length (output_lines (B.trace board.new))) }
    ensures unformatted_unread { S.tells → B.tells → (byte : ℕ) → result ≡ Ended.Unformatted byte → source.new ≡ source.old }
    ensures foreign_unread { S.tells → B.tells → (at : ℕ) → result ≡ Ended.Foreign at → source.new ≡ source.old }
    ensures memory { result ≡ Ended.Memory → Rose (B.faults board.old).memory (B.faults board.new).memory }
    ensures read { result ≡ Ended.Read → Rose (S.faults source.old) (S.faults source.new) }
    ensures write { result ≡ Ended.Write → Rose (B.faults board.old).output (B.faults board.new).output }
{
    match recover(board) {
        Ok((config, opening, side)) => {
            let mut station = Station::start(Meter::start(config, opening), side);
            answer_lines(source, &mut station, board)
        }
        Err(fault) => Ended::from(fault),
    }
}
