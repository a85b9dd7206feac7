//! A memory that holds the first record of a meter.

ghost use Rattle.std.specs.Prelude.{◌≡◌, ◌+◌, ◌≤◌, ◌⊎◌, length, slice_index, IsErrOf, OnOk};
ghost use Rattle.meter_config.specs.Views.{config_view};
ghost use Rattle.billing_memory.specs.Records.{record_view};
ghost use Rattle.memory_model.specs.Stored.{mark};
ghost use Rattle.trace_model.specs.Images.{NothingPending, replaced};
ghost use Rattle.trace_model.specs.Moments.{Grew, Leaves};
ghost use Rattle.meter_board.specs.Causes.{CausedBy};
ghost use Rattle.register_store.specs.declared.format_fault.FormatFault.TheVariants.{Formatted, Memory};
ghost use Rattle.register_store.specs.Faults.{FormatCause};
ghost use Rattle.register_store.specs.Works.{FormatWorks};
ghost use Rattle.register_store.specs.Formatted.{HoldsInA, UnformattedOr, Spells};
ghost use Rattle.state_codec.specs.Slot.{zeros};

use crate::FormatFault;
use crate::layout::MARK;
use crate::settling::store_settled;
use billing_memory::MeterRecord;
use meter_board::Board;
use meter_config::Config;
use state_codec::{encode_header, encode_record};

/// Lets an unformatted memory hold the configuration, and the record in slot A. The mark is stored last, so that
/// the memory is unformatted until it holds them.
///
/// # Errors
/// [`FormatFault::Formatted`] where the first byte is the mark already; then nothing is stored.
/// [`FormatFault::Memory`] where the memory failed, [`FormatFault::Cut`] where the power failed.
pub fn format<B: Board>(board: &mut B, c: &Config, m: &MeterRecord) -> Result<(), FormatFault>
    requires { B.tells → NothingPending (B.trace board.old) }
    ensures formatted { B.tells → IsErrOf result Formatted → slice_index (B.reads board.old) 0 ≡ mark }
    ensures refused { B.tells → slice_index (B.reads board.old) 0 ≡ mark → IsErrOf result Formatted ⊎ IsErrOf result Memory }
    ensures stays { B.tells → slice_index (B.reads board.old) 0 ≡ mark → B.trace board.new ≡ B.trace board.old }
    ensures moments { B.tells → Grew (Leaves (UnformattedOr (config_view c.now) (record_view m.now))) (B.trace board.old) (B.trace board.new) }
    ensures ok { B.tells → OnOk result (Leaves (HoldsInA (config_view c.now) (record_view m.now)) (B.trace board.new)) }
    ensures settled { B.tells → OnOk result (NothingPending (B.trace board.new)) }
    ensures works { B.tells → FormatWorks result (B.trace board.old) (B.trace board.new) }
    ensures cause { CausedBy FormatCause (B.faults board.old) (B.faults board.new) result }
{
    let mut first = [0; 1];
    board.load(0, &mut first)?;
    if first[0] == MARK {
        return Err(FormatFault::Formatted);
    }
    let bytes = spelled(c, m);
    store_settled(board, 1, &bytes)?;
    store_settled(board, 0, &[MARK])?;
    Ok(())
}

// The bytes 1 to 1,791 of the memory.
fn spelled(c: &Config, m: &MeterRecord) -> [u8; 1791]
    ensures { Spells (config_view c.now) (record_view m.now) result }
{
    let mut out = blank();
    put_at(&mut out, 0, &encode_header(c));
    put_at(&mut out, 511, &encode_record(m));
    out
}

#[tactic(auto, unfolding(state_codec::specs::Slot::zeros))]
fn blank() -> [u8; 1791]
    ensures { result ≡ zeros 1791 }
{
    [0; 1791]
}

fn put_at(out: &mut [u8], at: usize, part: &[u8])
    requires { at + length part.now ≤ length out.old }
    ensures { out.new ≡ replaced out.old at part.now }
{
    out[at..at + part.len()].copy_from_slice(part);
}
