//! The command `dry`.
ghost use Rattle.std.specs.Prelude.{◌≡◌, ℕ, List, [], length};
ghost use Rattle.std.proofs.Common.{refl, ◌∙◌};
ghost use Rattle.trace_model.specs.Trace.{IsFresh, base_of};
ghost use Rattle.trace_model.specs.Output.{PutsAlone, output_lines};
ghost use Rattle.billing_memory.specs.Records.{record_view};
ghost use Rattle.event_script.specs.Views.{IsInRange, line_view};
ghost use Rattle.meter_config.specs.Views.{settings_of};
ghost use Rattle.meter_board.specs.Causes.{Rose};
ghost use Rattle.run_engine.specs.Dry.{EndsWithoutMemory, dry_opening, dry_setup, dry_settings};
ghost use Rattle.run_engine.specs.Progress.{SomeProgress};
ghost use Rattle.run_engine.specs.Outcome.{IsDoneOrRefused, Outcome, StopsAtRead};
ghost use Rattle.run_engine.specs.EventVerdict.{DryVerdict};

use crate::Ended;
use crate::answering::{Answerer, answer_lines};
use crate::events::take_event;
use crate::stop::{Halt, Stop};
use crate::text::ok_line;
use billing_memory::MeterRecord;
use event_script::{Line, LineFault};
use line_text::LineText;
use meter_board::{Board, Failed, Source};
use meter_config::Config;
use meter_core::Meter;

/// Meters the events of a script without a memory, in the standard configuration, from a record that has
/// counted nothing, and answers each line by an output line, as soon as the bytes that were read decide it. No call
/// on the memory is made.
pub fn dry<S: Source, B: Board>(source: &mut S, board: &mut B) -> Ended
    requires { B.tells → IsFresh (B.trace board.old) }
    ensures ran { S.tells → B.tells → Outcome dry_setup dry_opening (S.left source.old) (B.trace board.new) result }
    ensures base { B.tells → base_of (B.trace board.new) ≡ base_of (B.trace board.old) }
    ensures kind { EndsWithoutMemory result }
    ensures puts { B.tells → PutsAlone (B.trace board.new) }
    ensures memory_untouched { B.memory_calls board.new ≡ B.memory_calls board.old }
    ensures complete { ¬ Rose (S.faults source.old) (S.faults source.new) → ¬ Rose (B.faults board.old).output (B.faults board.new).output → IsDoneOrRefused result }
    ensures end { S.tells → B.tells → result ≡ Ended.Done → S.left source.new ≡ [] }
    ensures delivered { S.tells → B.tells → result ≡ Ended.Read → StopsAtRead (S.left source.old) (S.left source.new) (length (output_lines (B.trace board.new))) }
    ensures read { result ≡ Ended.Read → Rose (S.faults source.old) (S.faults source.new) }
    ensures write { result ≡ Ended.Write → Rose (B.faults board.old).output (B.faults board.new).output }
{
    let mut meter = DryMeter::standard();
    answer_lines(source, &mut meter, board)
}

/// A meter of the standard configuration, without a memory.
#[derive(Drop)]
struct DryMeter {
    meter: Meter,
    // The output line that was made last.
    line: LineText,
    ghost standard: { settings_of meter.config ≡ dry_settings },
}

impl DryMeter {
    /// A meter that has counted nothing.
    fn standard() -> DryMeter
        ensures opening { record_view result.meter.record ≡ dry_opening }
    {
        let config = Config::standard();
        DryMeter {
            meter: Meter::start(config, MeterRecord::opening(config.opening_day)),
            line: LineText::new(),
        }
    }

    /// Takes the event that a line says. A line of another kind is refused.
    fn take(&mut self, said: &Line) -> Result<(), LineFault>
        requires { IsInRange said.now }
        ensures { (message : List ℕ) → DryVerdict dry_settings (record_view self.old.meter.record) (line_view said.now message) (record_view self.new.meter.record) result }
    {
        match said {
            Line::Metering(event) => take_event(event, &mut self.meter),
            Line::Power | Line::Cut { .. } | Line::Opt | Line::Mbus => Err(LineFault::NotDry),
        }
    }
}

impl<B: Board> Answerer<B> for DryMeter {
    ghost Opening = { Unit {0} };

    ghost IsSettled = { λ _ _. Unit {0} };

    ghost Readiness = { λ dry board _ script rest n. SomeProgress dry_setup dry_opening script rest n (record_view dry.meter.record) (B.trace board) };

    ghost Leaves = { λ board _ script ended. Outcome dry_setup dry_opening script (B.trace board) ended };

    ghost MayEnd = { EndsWithoutMemory };

    ghost GoesOn = { λ old new. (B.tells → base_of (B.trace new) ≡ base_of (B.trace old)) × (B.tells → PutsAlone (B.trace old) → PutsAlone (B.trace new)) × (B.memory_calls new ≡ B.memory_calls old) };

    fn answer(&mut self, said: &Line, _message: &[u8], board: &mut B) -> Result<(), Stop> {
        match self.take(said) {
            Ok(()) => {}
            Err(kind) => return Err(Stop::Refused(kind)),
        }
        let per_pulse = self.meter.config().per_pulse;
        ok_line(&mut self.line, self.meter.state(), per_pulse);
        match board.put(self.line.as_bytes()) {
            Ok(()) => Ok(()),
            Err(Failed) => Err(Stop::Halted(Halt::Write)),
        }
    }

    ghost may_end_reading = { (tt, (λ _ _. tt), tt) };

    ghost stays = { λ _. ((λ _. refl), (λ _ puts. puts), refl) };

    ghost goes_further = { λ _ _ _ first second. ((λ tells. second.0 tells ∙ first.0 tells), (λ tells puts. second.1 tells (first.1 tells puts)), second.2 ∙ first.2) };
}
