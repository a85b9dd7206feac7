//! The command `init`.
ghost use Rattle.std.specs.Prelude.{◌≡◌, ◌⊎◌, ◌≤◌, ◌<◌, ◌+◌, ◌++◌, [], Ok, Err, length, take, slice_index, IfOk, IfErr, IsErr};
ghost use Rattle.config_model.specs.Configuration.{Configuration};
ghost use Rattle.accept_model.specs.Accepted.{accepted};
ghost use Rattle.memory_model.specs.Stored.{mark};
ghost use Rattle.trace_model.specs.Trace.{IsFresh, base_of};
ghost use Rattle.trace_model.specs.Moments.{Grew, Leaves};
ghost use Rattle.meter_config.specs.Views.{config_view};
ghost use Rattle.billing_memory.specs.Records.{record_view};
ghost use Rattle.meter_board.specs.Causes.{Rose};
ghost use Rattle.register_store.specs.Formatted.{UnformattedOr};
ghost use Rattle.meter_cli.specs.Ends.{EndsFormat, EndsText};
ghost use Rattle.meter_cli.specs.Init.{InitAnswers, InitLeaves, first_record, init_line};
ghost use Rattle.meter_cli.specs.Status.{format_status, text_status};

use crate::puts::put_line;
use crate::status::{Status, format_status, text_status};
use arrayvec::ArrayString;
use billing_memory::MeterRecord;
use energy_register::digits_text;
use meter_board::{Board, Failed, Source};
use meter_config::{Config, read_config};
use register_store::format;
use std::alloc::Global;

/// How many bytes of the source are read: one more than a configuration's text may have.
const READ_BYTES: usize = 4_097;

/// The room of the line that is put.
const LINE_ROOM: usize = 16;

/// Lets an unformatted memory hold the configuration that the source tells, and a record that has counted
/// nothing, and puts the line `init SERIAL`. No memory call comes before a text that is refused.
pub fn init<S: Source, B: Board>(alloc: Global, source: &mut S, board: &mut B) -> Status
    requires { B.tells → IsFresh (B.trace board.old) }
    ensures answers { S.tells → InitAnswers (accepted (S.left source.old)) (S.left source.new) result }
    ensures reads { S.tells → length (S.left source.old) ≤ length (S.left source.new) + READ_BYTES }
    ensures leaves { B.tells → InitLeaves (λ (c : Configuration). S.tells → accepted (S.left source.old) ≡ Ok c) (B.reads board.old) (B.trace board.old) (B.trace board.new) result }
    ensures untouched { EndsText result → board.new ≡ board.old }
    ensures marked { B.tells → slice_index (B.reads board.old) 0 ≡ mark → B.trace board.new ≡ B.trace board.old }
    ensures moments { (c : Configuration) → S.tells → B.tells → accepted (S.left source.old) ≡ Ok c → Grew (Leaves (UnformattedOr c (first_record c))) (B.trace board.old) (B.trace board.new) }
    ensures base { B.tells → base_of (B.trace board.new) ≡ base_of (B.trace board.old) }
    ensures ends { EndsText result ⊎ EndsFormat result }
    ensures read { result ≡ Status.Read → Rose (S.faults source.old) (S.faults source.new) }
    ensures memory { result ≡ Status.Memory → Rose (B.faults board.old).memory (B.faults board.new).memory }
    ensures cut { result ≡ Status.Cut → Rose (B.faults board.old).cuts (B.faults board.new).cuts }
    ensures write { result ≡ Status.Write → Rose (B.faults board.old).output (B.faults board.new).output }
{
    match told_config(alloc, source) {
        Ok(config) => hold(board, &config),
        Err(status) => status,
    }
}

/// The configuration that the source tells, or the status of a text that gives none.
fn told_config<S: Source>(alloc: Global, source: &mut S) -> Result<Config, Status>
    ensures ok { IfOk result (λ (c : Config). S.tells → (accepted (S.left source.old) ≡ Ok (config_view c)) × (S.left source.new ≡ [])) }
    ensures err { IfErr result (λ status. S.tells → InitAnswers (accepted (S.left source.old)) (S.left source.new) status) }
    ensures ends { IfErr result EndsText }
    ensures reads { S.tells → length (S.left source.old) ≤ length (S.left source.new) + READ_BYTES }
    ensures read { IfErr result (λ status. status ≡ Status.Read → Rose (S.faults source.old) (S.faults source.new)) }
{
    let mut bytes = [0; READ_BYTES];
    match fill(source, &mut bytes) {
        Ok(len) => match read_config(alloc, &bytes[..len]) {
            Ok(config) => Ok(config),
            Err(fault) => Err(text_status(fault)),
        },
        Err(Failed) => Err(Status::Read),
    }
}

/// Reads into `into` until it is full or the source ends, and answers how many bytes were read.
pub fn fill<S: Source>(source: &mut S, into: &mut [u8]) -> Result<usize, Failed>
    ensures size { length into.new ≡ length into.old }
    ensures fits { IfOk result (λ n. n ≤ length into.new) }
    ensures bytes { IfOk result (λ n. S.tells → S.left source.old ≡ take n into.new ++ S.left source.new) }
    ensures end { IfOk result (λ n. S.tells → n < length into.new → S.left source.new ≡ []) }
    ensures reads { S.tells → length (S.left source.old) ≤ length (S.left source.new) + length into.old }
    ensures failed { IsErr result → Rose (S.faults source.old) (S.faults source.new) }
{
    let mut filled = 0;
    while filled < into.len() {
        match source.read(&mut into[filled..]) {
            Ok(0) => return Ok(filled),
            Ok(count) => filled += count,
            Err(Failed) => return Err(Failed),
        }
    }
    Ok(filled)
}

/// Formats the memory for this configuration, and puts its line.
fn hold<B: Board>(board: &mut B, config: &Config) -> Status
    requires { B.tells → IsFresh (B.trace board.old) }
    ensures leaves { B.tells → InitLeaves (λ c. c ≡ config_view config.now) (B.reads board.old) (B.trace board.old) (B.trace board.new) result }
    ensures marked { B.tells → slice_index (B.reads board.old) 0 ≡ mark → B.trace board.new ≡ B.trace board.old }
    ensures moments { B.tells → Grew (Leaves (UnformattedOr (config_view config.now) (first_record (config_view config.now)))) (B.trace board.old) (B.trace board.new) }
    ensures base { B.tells → base_of (B.trace board.new) ≡ base_of (B.trace board.old) }
    ensures ends { EndsFormat result }
    ensures memory { result ≡ Status.Memory → Rose (B.faults board.old).memory (B.faults board.new).memory }
    ensures cut { result ≡ Status.Cut → Rose (B.faults board.old).cuts (B.faults board.new).cuts }
    ensures write { result ≡ Status.Write → Rose (B.faults board.old).output (B.faults board.new).output }
{
    match format(board, config, &opening(config)) {
        Ok(()) => put_line(board, line(config).as_str().as_bytes()),
        Err(fault) => format_status(fault),
    }
}

fn opening(config: &Config) -> MeterRecord
    ensures { record_view result ≡ first_record (config_view config.now) }
{
    MeterRecord::opening(config.opening_day)
}

fn line(config: &Config) -> ArrayString<LINE_ROOM>
    ensures text { result.bytes ≡ init_line (config_view config.now) }
    ensures some { 0 < length result.bytes }
{
    let mut text = ArrayString::new();
    text.push_str("init ");
    text.push_str(digits_text(config.serial, 0).as_str());
    text.push_str("\n");
    text
}
