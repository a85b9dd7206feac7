//! The events of lines.
ghost use Rattle.std.specs.Prelude.{◌≡◌};
ghost use Rattle.billing_memory.specs.Records.{record_view};
ghost use Rattle.event_script.specs.Views.{IsEvent, event_view, fault_view};
ghost use Rattle.meter_config.specs.Views.{settings_of};
ghost use Rattle.meter_core.specs.Events.{refused_view};
ghost use Rattle.run_engine.specs.EventVerdict.{EventVerdict};

use event_script::{Event, LineFault};
use meter_core::{Meter, Refused};

/// Why a line is refused whose event is refused.
fn line_fault(refused: Refused) -> LineFault
    ensures { fault_view result ≡ refused_view refused }
{
    match refused {
        Refused::EventsFull { seq } => LineFault::EventsFull { seq },
        Refused::DateBack { in_force } => LineFault::DateBack { in_force },
        Refused::PulsesFull { sum } => LineFault::PulsesFull { sum },
    }
}

/// Takes the event of a line.
#[inline(always)]
pub(crate) fn take_event(event: &Event, meter: &mut Meter) -> Result<(), LineFault>
    requires { IsEvent event.now }
    ensures takes { EventVerdict (settings_of meter.old.config) (record_view meter.old.record) (event_view event.now) (record_view meter.new.record) result }
    ensures config { meter.new.config ≡ meter.old.config }
{
    match meter.apply(event) {
        Ok(()) => Ok(()),
        Err(refused) => Err(line_fault(refused)),
    }
}
