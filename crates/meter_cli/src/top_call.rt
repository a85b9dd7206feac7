//! What the program does.
ghost use Rattle.std.specs.Prelude.{◌≡◌, ◌≢◌, ◌⊎◌, ◌↔◌, ◌+◌, ◌-◌, ◌^◌, ◌≤◌, ℕ, [], length, min, slice_index, Ok, Err, Result};
ghost use Rattle.script_model.specs.Lines.{lines_of};
ghost use Rattle.config_model.specs.Configuration.{Configuration};
ghost use Rattle.metering_model.specs.Records.{MeterRecord};
ghost use Rattle.accept_model.specs.Accepted.{accepted};
ghost use Rattle.memory_model.specs.Slots as slots;
ghost use Rattle.memory_model.specs.Slots.{look};
ghost use Rattle.memory_model.specs.Stored.{Foreign, Holds, Side, Unformatted, mark, stored};
ghost use Rattle.trace_model.specs.Trace.{IsFresh, Trace, base_of};
ghost use Rattle.trace_model.specs.Moments.{IsPrefix, Leaves};
ghost use Rattle.trace_model.specs.Output.{PutsAlone, output_lines};
ghost use Rattle.pairing_model.specs.Setup.{on_memory};
ghost use Rattle.pairing_model.specs.Journal.{Journal, at_start};
ghost use Rattle.pairing_model.specs.Pairing.{Pairs};
ghost use Rattle.meter_board.specs.Causes.{Rose};
ghost use Rattle.meter_config.specs.Faults.{Refuses};
ghost use Rattle.meter_config.specs.declared.fault.ConfigFault.{ConfigFault};
ghost use Rattle.register_store.specs.Formatted.{UnformattedOr};
ghost use Rattle.reading_model.specs.Messages.{message_in};
ghost use Rattle.reading_model.specs.Telegrams.{telegram_in};
ghost use Rattle.run_engine.specs.Outcome.{StopsAtRead};
ghost use Rattle.meter_cli.specs.Answer.{AnswerLeaves};
ghost use Rattle.meter_cli.specs.Cert.{CertLeaves};
ghost use Rattle.command_words.specs.Command.{ReadsNothing, UsesNoMemory, command_of, texts};
ghost use Rattle.meter_cli.specs.Ends.{EndsBy, EndsText, EndsUnread};
ghost use Rattle.meter_cli.specs.Init.{InitAnswers, InitLeaves, first_record};
ghost use Rattle.meter_cli.specs.Read.{ReadAnswers, ReadLeaves, read_status};
ghost use Rattle.answer_lines.specs.ReadLines.{AreMessageLines, AreTelegramLines};
ghost use Rattle.meter_cli.specs.Show.{ShowLeaves};
ghost use Rattle.meter_cli.specs.Slots.{SlotsLeaves};
ghost use Rattle.meter_cli.specs.Status.{DryLeaves, IsDoneOrLine, RunEnds, status_of};
ghost use Rattle.command_words.specs.declared.job.Job.{Job};
ghost use Rattle.command_words.specs.declared.job.Query.{Query};
ghost use Rattle.slope_model.specs.Slope.{EnthalpyRises};

use crate::answer::answer;
use crate::cert::cert;
use crate::init::init;
use crate::readout;
use crate::show::show;
use crate::slots::slots;
use crate::status::Status;
use command_words::{Job, command};
use meter_board::{Board, Source};
use run_engine::{Ended, dry, run};
use std::alloc::Global;

/// Does what the words after the program's name say, on this source and this board, and answers how it
/// ended. Each status has its cause in a clause; `init` alone takes memory, which may run out.
pub fn meter<S: Source, B: Board>(
    alloc: Global,
    words: &[&str],
    source: &mut S,
    board: &mut B,
) -> Status
    requires { B.tells → IsFresh (B.trace board.old) }

    // Usage comes exactly where the words are no command, and then nothing is touched.
    ensures usage { (at : ℕ) → (result ≡ Status.Usage at) ↔ (command_of (texts words.now) ≡ Err at) }
    ensures untouched { (at : ℕ) → command_of (texts words.now) ≡ Err at → (source.new ≡ source.old) × (board.new ≡ board.old) }

    // What `run` leaves, by what the memory stood for at its start. Where nothing failed, each line has its answer, or
    // one is refused by the record in force; power failures do not hinder it. No more events meet a power failure than
    // the board counts cuts.
    ensures run { command_of (texts words.now) ≡ Ok Job.Run → S.tells → B.tells → RunEnds (stored (base_of (B.trace board.old))) (S.left source.old) (B.trace board.new) result }
    ensures run_complete { (c : Configuration) (o : MeterRecord) (side : Side) → command_of (texts words.now) ≡ Ok Job.Run → S.tells → B.tells → stored (base_of (B.trace board.old)) ≡ Holds c o side → ¬ Rose (S.faults source.old) (S.faults source.new) → ¬ Rose (B.faults board.old).memory (B.faults board.new).memory → ¬ Rose (B.faults board.old).output (B.faults board.new).output → IsDoneOrLine result }
    ensures run_few_lost { (c : Configuration) (o : MeterRecord) (side : Side) (j : Journal) → command_of (texts words.now) ≡ Ok Job.Run → S.tells → B.tells → stored (base_of (B.trace board.old)) ≡ Holds c o side → Pairs (on_memory c) o 0 at_start (lines_of (S.left source.old)) (output_lines (B.trace board.new)) j → min ((B.faults board.old).cuts + j.interrupted) (2 ^ 64 - 1) ≤ (B.faults board.new).cuts }
    ensures run_end { command_of (texts words.now) ≡ Ok Job.Run → S.tells → B.tells → result ≡ Status.Done → S.left source.new ≡ [] }
    ensures run_delivered { command_of (texts words.now) ≡ Ok Job.Run → S.tells → B.tells → result ≡ Status.Read → StopsAtRead (S.left source.old) (S.left source.new) (length (output_lines (B.trace board.new))) }

    // What `dry` leaves. Where nothing failed, each line has its answer, or one is refused by the record in force.
    ensures dry { command_of (texts words.now) ≡ Ok Job.Dry → S.tells → B.tells → DryLeaves (S.left source.old) (B.trace board.new) result }
    ensures complete { command_of (texts words.now) ≡ Ok Job.Dry → ¬ Rose (S.faults source.old) (S.faults source.new) → ¬ Rose (B.faults board.old).output (B.faults board.new).output → IsDoneOrLine result }
    ensures end { command_of (texts words.now) ≡ Ok Job.Dry → S.tells → B.tells → result ≡ Status.Done → S.left source.new ≡ [] }
    ensures delivered { command_of (texts words.now) ≡ Ok Job.Dry → S.tells → B.tells → result ≡ Status.Read → StopsAtRead (S.left source.old) (S.left source.new) (length (output_lines (B.trace board.new))) }

    // What `init` answers to its text and leaves. A text that is refused, or was not read, touches no board.
    ensures init_answers { command_of (texts words.now) ≡ Ok Job.Init → S.tells → InitAnswers (accepted (S.left source.old)) (S.left source.new) result }
    ensures init_leaves { command_of (texts words.now) ≡ Ok Job.Init → B.tells → InitLeaves (λ (c : Configuration). S.tells → accepted (S.left source.old) ≡ Ok c) (B.reads board.old) (B.trace board.old) (B.trace board.new) result }
    ensures init_untouched { command_of (texts words.now) ≡ Ok Job.Init → EndsText result → board.new ≡ board.old }
    ensures init_reads { command_of (texts words.now) ≡ Ok Job.Init → S.tells → length (S.left source.old) ≤ length (S.left source.new) + 4097 }

    // Config comes exactly where the text is refused, and Formatted exactly where it is accepted and the memory
    // begins with the mark, but for a fault or want of memory that stands before it.
    ensures init_refused { (fault : ConfigFault) → command_of (texts words.now) ≡ Ok Job.Init → S.tells → Refuses fault (accepted (S.left source.old)) → (result ≡ Status.Config fault) ⊎ (result ≡ Status.Read) ⊎ (result ≡ Status.OutOfMemory) }
    ensures init_formatted { (c : Configuration) → command_of (texts words.now) ≡ Ok Job.Init → S.tells → B.tells → accepted (S.left source.old) ≡ Ok c → slice_index (B.reads board.old) 0 ≡ mark → (result ≡ Status.Formatted) ⊎ (result ≡ Status.Read) ⊎ (result ≡ Status.OutOfMemory) ⊎ (result ≡ Status.Memory) }
    ensures init_marked { command_of (texts words.now) ≡ Ok Job.Init → B.tells → slice_index (base_of (B.trace board.old)) 0 ≡ mark → B.trace board.new ≡ B.trace board.old }

    // At each moment of `init` the memory is unformatted, or holds the configuration with its first record.
    ensures init_moments { (c : Configuration) (p : Trace) → command_of (texts words.now) ≡ Ok Job.Init → S.tells → B.tells → accepted (S.left source.old) ≡ Ok c → slice_index (base_of (B.trace board.old)) 0 ≢ mark → IsPrefix p (B.trace board.new) → Leaves (UnformattedOr c (first_record c)) p }
    ensures init_complete { (c : Configuration) → command_of (texts words.now) ≡ Ok Job.Init → S.tells → B.tells → accepted (S.left source.old) ≡ Ok c → slice_index (base_of (B.trace board.old)) 0 ≢ mark → ¬ Rose (S.faults source.old) (S.faults source.new) → ¬ Rose (B.faults board.old).memory (B.faults board.new).memory → ¬ Rose (B.faults board.old).output (B.faults board.new).output → ¬ Rose (B.faults board.old).cuts (B.faults board.new).cuts → (result ≡ Status.Done) ⊎ (result ≡ Status.OutOfMemory) }

    // What `show` leaves. Unformatted and Foreign come exactly where the memory is so, but for a fault before them.
    ensures show_leaves { command_of (texts words.now) ≡ Ok Job.Show → B.tells → ShowLeaves (B.reads board.old) (B.trace board.old) (B.trace board.new) result }
    ensures show_unformatted { (byte : ℕ) → command_of (texts words.now) ≡ Ok Job.Show → B.tells → stored (B.reads board.old) ≡ Unformatted byte → (result ≡ Status.Unformatted byte) ⊎ (result ≡ Status.Memory) }
    ensures show_foreign { (at : ℕ) → command_of (texts words.now) ≡ Ok Job.Show → B.tells → stored (B.reads board.old) ≡ Foreign at → (result ≡ Status.Foreign at) ⊎ (result ≡ Status.Memory) }
    ensures show_complete { (c : Configuration) (r : MeterRecord) (side : Side) → command_of (texts words.now) ≡ Ok Job.Show → B.tells → stored (B.reads board.old) ≡ Holds c r side → ¬ Rose (B.faults board.old).memory (B.faults board.new).memory → ¬ Rose (B.faults board.old).output (B.faults board.new).output → result ≡ Status.Done }

    // What `slots` leaves. Unformatted and Foreign come exactly where the first byte is not the mark, and where a field of
    // the header breaks its rule, but for a fault before them.
    ensures slots_leaves { command_of (texts words.now) ≡ Ok Job.Slots → B.tells → SlotsLeaves (B.reads board.old) (B.trace board.old) (B.trace board.new) result }
    ensures slots_unformatted { (byte : ℕ) → command_of (texts words.now) ≡ Ok Job.Slots → B.tells → look (B.reads board.old) ≡ slots.Unformatted byte → (result ≡ Status.Unformatted byte) ⊎ (result ≡ Status.Memory) }
    ensures slots_foreign { (at : ℕ) → command_of (texts words.now) ≡ Ok Job.Slots → B.tells → look (B.reads board.old) ≡ slots.Foreign at → (result ≡ Status.Foreign at) ⊎ (result ≡ Status.Memory) }
    ensures slots_complete { (gate : Side) (a b : Result ℕ ℕ) → command_of (texts words.now) ≡ Ok Job.Slots → B.tells → look (B.reads board.old) ≡ slots.Slots gate a b → ¬ Rose (B.faults board.old).memory (B.faults board.new).memory → ¬ Rose (B.faults board.old).output (B.faults board.new).output → result ≡ Status.Done }

    // The commands that are answered by one line are done unless the output failed.
    ensures answer { (query : Query) → command_of (texts words.now) ≡ Ok (Job.Ask query) → B.tells → AnswerLeaves query (B.trace board.old) (B.trace board.new) result }
    ensures one_line { (query : Query) → command_of (texts words.now) ≡ Ok (Job.Ask query) → (result ≡ Status.Done) ⊎ Rose (B.faults board.old).output (B.faults board.new).output }

    // What `cert` leaves. Its last line is `yes` only where the enthalpy rises everywhere, and it stops elsewhere only
    // where the output fails.
    ensures cert { (p : ℕ) → command_of (texts words.now) ≡ Ok (Job.Cert p) → B.tells → CertLeaves p (B.trace board.old) (B.trace board.new) result }
    ensures cert_rises { (p : ℕ) → command_of (texts words.now) ≡ Ok (Job.Cert p) → result ≡ Status.Done → EnthalpyRises p }
    ensures cert_complete { (p : ℕ) → command_of (texts words.now) ≡ Ok (Job.Cert p) → (result ≡ Status.Done) ⊎ ((segment : ℕ) × (result ≡ Status.NotRising segment)) ⊎ Rose (B.faults board.old).output (B.faults board.new).output }

    // What `read mbus` leaves. Where nothing fails it is done, with the lines of exactly what the bytes say, or names
    // the place at which they break a rule, and then nothing was put. 262 bytes decide.
    ensures read_mbus { command_of (texts words.now) ≡ Ok Job.ReadMbus → S.tells → B.tells → ReadLeaves AreTelegramLines (telegram_in (S.left source.old)) (B.trace board.old) (B.trace board.new) result }
    ensures read_mbus_answers { command_of (texts words.now) ≡ Ok Job.ReadMbus → S.tells → ReadAnswers (telegram_in (S.left source.old)) result }
    ensures read_mbus_complete { command_of (texts words.now) ≡ Ok Job.ReadMbus → S.tells → ¬ Rose (S.faults source.old) (S.faults source.new) → ¬ Rose (B.faults board.old).output (B.faults board.new).output → result ≡ read_status (telegram_in (S.left source.old)) }
    ensures read_mbus_reads { command_of (texts words.now) ≡ Ok Job.ReadMbus → S.tells → length (S.left source.old) ≤ length (S.left source.new) + 262 }
    ensures read_mbus_untouched { command_of (texts words.now) ≡ Ok Job.ReadMbus → EndsUnread result → board.new ≡ board.old }

    // `read optical` in the same way. 2,049 bytes decide.
    ensures read_optical { command_of (texts words.now) ≡ Ok Job.ReadOptical → S.tells → B.tells → ReadLeaves AreMessageLines (message_in (S.left source.old)) (B.trace board.old) (B.trace board.new) result }
    ensures read_optical_answers { command_of (texts words.now) ≡ Ok Job.ReadOptical → S.tells → ReadAnswers (message_in (S.left source.old)) result }
    ensures read_optical_complete { command_of (texts words.now) ≡ Ok Job.ReadOptical → S.tells → ¬ Rose (S.faults source.old) (S.faults source.new) → ¬ Rose (B.faults board.old).output (B.faults board.new).output → result ≡ read_status (message_in (S.left source.old)) }
    ensures read_optical_reads { command_of (texts words.now) ≡ Ok Job.ReadOptical → S.tells → length (S.left source.old) ≤ length (S.left source.new) + 2049 }
    ensures read_optical_untouched { command_of (texts words.now) ≡ Ok Job.ReadOptical → EndsUnread result → board.new ≡ board.old }

    // The commands that are answered by one line, `cert`, `show` and `slots` read nothing.
    ensures unread { (job : Job) → command_of (texts words.now) ≡ Ok job → ReadsNothing job → source.new ≡ source.old }

    // Nor does `run` where the memory is unformatted or foreign; a board that tells has no such memory later on.
    ensures run_unformatted { (byte : ℕ) → command_of (texts words.now) ≡ Ok Job.Run → S.tells → B.tells → result ≡ Status.Unformatted byte → source.new ≡ source.old }
    ensures run_foreign { (at : ℕ) → command_of (texts words.now) ≡ Ok Job.Run → S.tells → B.tells → result ≡ Status.Foreign at → source.new ≡ source.old }

    // But for `init`, `run`, `show` and `slots`, no command makes a call on the memory, not even one that leaves no trace.
    ensures memory_untouched { (job : Job) → command_of (texts words.now) ≡ Ok job → UsesNoMemory job → B.memory_calls board.new ≡ B.memory_calls board.old }

    // Each command has its own statuses.
    ensures ends { (job : Job) → command_of (texts words.now) ≡ Ok job → EndsBy job result }

    // But for `init` and `run`, nothing happens to the board but that bytes go out.
    ensures puts { command_of (texts words.now) ≢ Ok Job.Init → command_of (texts words.now) ≢ Ok Job.Run → B.tells → PutsAlone (B.trace board.new) }
    ensures base { B.tells → base_of (B.trace board.new) ≡ base_of (B.trace board.old) }

    // Faults have their causes.
    ensures read { result ≡ Status.Read → Rose (S.faults source.old) (S.faults source.new) }
    ensures memory { result ≡ Status.Memory → Rose (B.faults board.old).memory (B.faults board.new).memory }
    ensures cut { result ≡ Status.Cut → Rose (B.faults board.old).cuts (B.faults board.new).cuts }
    ensures write { result ≡ Status.Write → Rose (B.faults board.old).output (B.faults board.new).output }
{
    match command(words) {
        Err(usage) => Status::Usage { word: usage.word },
        Ok(Job::Init) => init(alloc, source, board),
        Ok(Job::Show) => show(board),
        Ok(Job::Slots) => slots(board),
        Ok(Job::Run) => status_from(run(source, board)),
        Ok(Job::Dry) => status_from(dry(source, board)),
        Ok(Job::Ask(query)) => answer(board, query),
        Ok(Job::Cert { p_kpa }) => cert(board, p_kpa),
        Ok(Job::ReadMbus) => readout::mbus(source, board),
        Ok(Job::ReadOptical) => readout::optical(source, board),
    }
}

fn status_from(ended: Ended) -> Status
    ensures { result ≡ status_of ended }
{
    match ended {
        Ended::Done => Status::Done,
        Ended::Line { n, kind } => Status::Line { n, kind },
        Ended::Memory => Status::Memory,
        Ended::Read => Status::Read,
        Ended::Write => Status::Write,
        Ended::Unformatted { byte } => Status::Unformatted { byte },
        Ended::Foreign { at } => Status::Foreign { at },
    }
}
