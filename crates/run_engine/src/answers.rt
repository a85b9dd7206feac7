//! The answers to lines: what the memory then holds, and what goes out.
ghost use Rattle.std.specs.Prelude.{◌≡◌, ◌≤◌, ◌<◌, ℕ, List, Option, Some, IfOk, IsErrOf, length};
ghost use Rattle.std.specs.Option.{option_map};
ghost use Rattle.trace_model.specs.Images.{NothingPending};
ghost use Rattle.config_model.specs.Configuration.{Configuration};
ghost use Rattle.metering_model.specs.Records as metering;
ghost use Rattle.memory_model.specs.Stored.{Holds};
ghost use Rattle.answer_model.specs.Texts.{ok_text, power_text};
ghost use Rattle.slave_model.specs.Heard as slaves;
ghost use Rattle.billing_memory.specs.Records.{record_view};
ghost use Rattle.meter_config.specs.Views.{config_view, settings_of};
ghost use Rattle.meter_board.specs.Causes.{CausedBy, OutputCause, RefusalCause};
ghost use Rattle.meter_board.specs.Puts.{PutGives};
ghost use Rattle.meter_board.specs.declared.refusal.Refusal.TheVariants as refusals;
ghost use Rattle.optical_readout.specs.Heard.{Heard};
ghost use Rattle.mbus_records.specs.State.{IsAfter};
ghost use Rattle.register_store.specs.Commits.{StandsFor, StandsOn};
ghost use Rattle.register_store.specs.Recovered.{side_view};
ghost use Rattle.run_engine.specs.Shows.{RepliesOnBus, ShowsOnBus, ShowsReply};
ghost use Rattle.run_engine.specs.Steps.{GoesOn, HoldGives, OrderGives};
ghost use Rattle.run_engine.specs.Stops.{OrderCause};

use crate::stop::OrderFault;
use crate::text::{ok_line, power_line, readout_line};
use arrayvec::ArrayVec;
use line_text::LineText;
use mbus_link::{parse, write};
use mbus_records::Slave;
use meter_board::{Board, Failed, Refusal};
use meter_core::Meter;
use optical_readout::Optical;
use register_store::{Side, commit};

/// Lets the memory hold the meter's record in the place of the one that it holds on this side. Answers the side that
/// holds it.
///
/// # Errors
/// [`Refusal::Failed`] where the memory failed, [`Refusal::Cut`] where the power failed. Then it holds either record.
pub(crate) fn hold<B: Board>(meter: &Meter, side: Side, board: &mut B) -> Result<Side, Refusal>
    requires settled { B.tells → NothingPending (B.trace board.old) }
    requires stands { B.tells → StandsOn (side_view side) (B.reads board.old) }
    ensures holds { B.tells → (c : Configuration) (r : metering.MeterRecord) → StandsFor (Holds c r (side_view side)) (B.reads board.old)
        → HoldGives c (side_view side) r (record_view meter.now.record) (B.trace board.old) result (B.trace board.new) (B.reads board.new) }
    ensures goes_on { B.tells → GoesOn result (B.trace board.old) (B.trace board.new) (B.faults board.old) (B.faults board.new) }
    ensures cut_settled { B.tells → IsErrOf result refusals.Cut → NothingPending (B.trace board.new) }
    ensures stands { B.tells → IfOk result (λ turned. StandsOn (side_view turned) (B.reads board.new)) }
    ensures cause { CausedBy RefusalCause (B.faults board.old) (B.faults board.new) result }
{
    commit(board, side, meter.state())
}

/// Shows the meter's record, which the memory holds.
pub(crate) fn acknowledge<B: Board>(meter: &Meter, board: &mut B) -> Result<(), Failed>
    ensures shows { B.tells → PutGives (B.trace board.old) (ok_text (settings_of meter.now.config) (record_view meter.now.record)) result (B.trace board.new) }
    ensures goes_on { B.tells → GoesOn result (B.trace board.old) (B.trace board.new) (B.faults board.old) (B.faults board.new) }
    ensures reads { B.tells → B.reads board.new ≡ B.reads board.old }
    ensures cause { CausedBy OutputCause (B.faults board.old) (B.faults board.new) result }
{
    let mut line = LineText::new();
    ok_line(&mut line, meter.state(), meter.config().per_pulse);
    show(line.as_bytes(), board)
}

/// Tells the meter's record, which was recovered after a power failure.
pub(crate) fn tell_recovered<B: Board>(meter: &Meter, board: &mut B) -> Result<(), Failed>
    ensures shows { B.tells → PutGives (B.trace board.old) (power_text (settings_of meter.now.config) (record_view meter.now.record)) result (B.trace board.new) }
    ensures goes_on { B.tells → GoesOn result (B.trace board.old) (B.trace board.new) (B.faults board.old) (B.faults board.new) }
    ensures reads { B.tells → B.reads board.new ≡ B.reads board.old }
    ensures cause { CausedBy OutputCause (B.faults board.old) (B.faults board.new) result }
{
    let mut line = LineText::new();
    power_line(&mut line, meter.state(), meter.config().per_pulse);
    show(line.as_bytes(), board)
}

/// Orders a cut of the power: within the `n`-th store or sync from now on, of which the first `keep` bytes are written
/// and `fill` in the place of the others.
pub(crate) fn order_cut<B: Board>(
    n: u16,
    keep: u16,
    fill: u8,
    board: &mut B,
) -> Result<(), OrderFault>
    requires { 1 ≤ n }
    ensures gives { B.tells → OrderGives n keep fill (B.trace board.old) result (B.trace board.new) }
    ensures goes_on { B.tells → GoesOn result (B.trace board.old) (B.trace board.new) (B.faults board.old) (B.faults board.new) }
    ensures reads { B.tells → B.reads board.new ≡ B.reads board.old }
    ensures cause { CausedBy OrderCause (B.faults board.old) (B.faults board.new) result }
{
    match board.arm(n, keep, fill) {
        Ok(()) => match show(b"armed\n".as_slice(), board) {
            Ok(()) => Ok(()),
            Err(Failed) => Err(OrderFault::Write),
        },
        Err(Failed) => Err(OrderFault::Memory),
    }
}

/// Hears a message at the optical head, and shows the reply.
pub(crate) fn answer_message<B: Board>(
    message: &[u8],
    meter: &Meter,
    optical: &mut Optical,
    board: &mut B,
) -> Result<(), Failed>
    ensures shows { B.tells → (last : Option (List ℕ)) → Heard (config_view meter.now.config) last optical.old
        → ShowsReply (config_view meter.now.config) (record_view meter.now.record) last message.now (B.trace board.old) result (B.trace board.new) }
    ensures heard { Heard (config_view meter.now.config) (Some message.now) optical.new }
    ensures goes_on { B.tells → GoesOn result (B.trace board.old) (B.trace board.new) (B.faults board.old) (B.faults board.new) }
    ensures reads { B.tells → B.reads board.new ≡ B.reads board.old }
    ensures cause { CausedBy OutputCause (B.faults board.old) (B.faults board.new) result }
{
    let reply = optical.hear(message, meter.config(), meter.state());
    let text = readout_line("opt", meter.state(), bytes_of(&reply));
    show(text.as_slice(), board)
}

/// Hears bytes on the bus, and shows the reply.
pub(crate) fn answer_bytes<B: Board>(
    bytes: &[u8],
    meter: &Meter,
    slave: &mut Slave,
    board: &mut B,
) -> Result<(), Failed>
    ensures shows { B.tells → (heard : List slaves.Heard) → IsAfter (config_view meter.now.config) heard slave.old
        → ShowsOnBus (config_view meter.now.config) (record_view meter.now.record) heard bytes.now slave.new (B.trace board.old) result (B.trace board.new) }
    ensures goes_on { B.tells → GoesOn result (B.trace board.old) (B.trace board.new) (B.faults board.old) (B.faults board.new) }
    ensures reads { B.tells → B.reads board.new ≡ B.reads board.old }
    ensures cause { CausedBy OutputCause (B.faults board.old) (B.faults board.new) result }
{
    let reply = hear_bytes(bytes, meter, slave);
    let text = readout_line("mbus", meter.state(), bytes_of(&reply));
    show(text.as_slice(), board)
}

/// Hears bytes on the bus, where they are a frame. Answers the bytes of the reply.
fn hear_bytes(bytes: &[u8], meter: &Meter, slave: &mut Slave) -> Option<ArrayVec<u8, 261>>
    ensures { (heard : List slaves.Heard) → IsAfter (config_view meter.now.config) heard slave.old
        → RepliesOnBus (config_view meter.now.config) (record_view meter.now.record) heard bytes.now (option_map (λ b. b.items) result) slave.new }
{
    let frame = parse(bytes)?;
    let reply = slave.hear(&frame, meter.config(), meter.state())?;
    Some(write(&reply))
}

fn bytes_of<const N: usize>(reply: &Option<ArrayVec<u8, N>>) -> Option<&[u8]>
    ensures { option_map (λ b. b.now) result ≡ option_map (λ b. b.items) reply.now }
{
    match reply {
        Some(bytes) => Some(bytes.as_slice()),
        None => None,
    }
}

/// Puts a text out.
fn show<B: Board>(text: &[u8], board: &mut B) -> Result<(), Failed>
    requires { 0 < length text.now }
    ensures gives { B.tells → PutGives (B.trace board.old) text.now result (B.trace board.new) }
    ensures goes_on { B.tells → GoesOn result (B.trace board.old) (B.trace board.new) (B.faults board.old) (B.faults board.new) }
    ensures reads { B.tells → B.reads board.new ≡ B.reads board.old }
    ensures cause { CausedBy OutputCause (B.faults board.old) (B.faults board.new) result }
{
    board.put(text)
}
