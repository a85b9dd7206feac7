//! The loop over the lines of a script.
ghost use Rattle.std.specs.Prelude.{◌≡◌, ℕ, ◌+◌, [], List, OnOk, IfErr, MatchResult};
ghost use Rattle.event_script.specs.Next.{IsFirst, SaysAt};
ghost use Rattle.event_script.specs.declared.LineFault.{LineFault};
ghost use Rattle.event_script.specs.Views.{IsInRange, line_view};
ghost use Rattle.meter_board.specs.Causes.{CausedBy, Rose};
ghost use Rattle.run_engine.specs.Reads.{IsOver};
ghost use Rattle.run_engine.specs.Stops.{StopCause, ended_by};

use crate::Ended;
use crate::stop::Stop;
use event_script::{Line, Lines, Next};
use meter_board::{Board, Source};

/// What answers the lines of a script, with the record in force: a meter without a memory, or one over the memory of a board.
pub(crate) trait Answerer<B: Board> {
    ghost use Rattle.run_engine.specs.declared.Ended.{Ended};
    ghost use Rattle.run_engine.specs.declared.Ended.TheVariants.{Done, Line, Read};

    /// What it began from.
    ghost Opening: { Type 0 };

    /// It and the board stand so that a line may come.
    ghost IsSettled: { Self → B → Type 0 };

    /// So many lines of the script have their answers, and these bytes are left of it.
    ghost Readiness: { Self → B → Opening → (script rest : List ℕ) → ℕ → Type 0 };

    /// What a run over the script leaves on the board.
    ghost Leaves: { B → Opening → (script : List ℕ) → Ended → Type 0 };

    /// How a run may end, whatever the board tells.
    ghost MayEnd: { Ended → Type 0 };

    /// How the board goes on while lines are answered.
    ghost GoesOn: { B → B → Type 0 };

    /// Answers a line that says this. The message is that of an `opt` or `mbus` line.
    fn answer(&mut self, said: &Line, message: &[u8], board: &mut B) -> Result<(), Stop>
        requires range { IsInRange said.now }
        requires settled { IsSettled self.old board.old }
        ensures leads { B.tells → (opening : Opening) → (script rest line after : List ℕ) (taken : ℕ) → Readiness self.old board.old opening script rest taken → IsFirst rest line after → SaysAt taken line (line_view said.now message.now)
            → MatchResult result (λ _. Readiness self.new board.new opening script after (taken + 1)) (λ stop. Leaves board.new opening script (ended_by (taken + 1) stop)) }
        ensures settled { OnOk result (IsSettled self.new board.new) }
        ensures goes_on { GoesOn board.old board.new }
        ensures may_end { IfErr result (λ stop. (n : ℕ) → MayEnd (ended_by n stop)) }
        ensures cause { CausedBy StopCause (B.faults board.old) (B.faults board.new) result };

    /// However reading ends, a run may end so.
    ghost may_end_reading: { MayEnd Done × ((n : ℕ) (kind : LineFault) → MayEnd (Line n kind)) × MayEnd Read };

    ghost stays: { (board : B) → GoesOn board board };

    ghost goes_further: { (first second third : B) → GoesOn first second → GoesOn second third → GoesOn first third };
}

/// Answers the lines of a script, up to the first that is refused, each as soon as the bytes that were read decide it.
pub(crate) fn answer_lines<S: Source, B: Board, A: Answerer<B>>(
    source: &mut S,
    answerer: &mut A,
    board: &mut B,
) -> Ended
    requires settled { A.IsSettled answerer.old board.old }
    ensures over { S.tells → B.tells → (opening : A.Opening) → A.Readiness answerer.old board.old opening (S.left source.old) (S.left source.old) 0
        → IsOver (A.Readiness answerer.new board.new opening (S.left source.old)) (A.Leaves board.new opening (S.left source.old) result) (S.left source.new) result }
    ensures goes_on { A.GoesOn board.old board.new }
    ensures may_end { A.MayEnd result }
    ensures end { S.tells → result ≡ Ended.Done → S.left source.new ≡ [] }
    ensures memory { result ≡ Ended.Memory → Rose (B.faults board.old).memory (B.faults board.new).memory }
    ensures read { result ≡ Ended.Read → Rose (S.faults source.old) (S.faults source.new) }
    ensures write { result ≡ Ended.Write → Rose (B.faults board.old).output (B.faults board.new).output }
{
    let mut lines = Lines::new();
    loop {
        let taken = lines.given();
        let said = match lines.next(source) {
            Next::Got(said) => said,
            Next::Bad(kind) => return Ended::Line { n: taken + 1, kind },
            Next::End => return Ended::Done,
            Next::ReadFault => return Ended::Read,
        };
        match answerer.answer(&said, lines.message(), board) {
            Ok(()) => {}
            Err(stop) => return stop.ended(taken + 1),
        }
    }
}
