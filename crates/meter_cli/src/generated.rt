//! The command `gen`.
ghost use Rattle.std.specs.Prelude.{◌≡◌, ◌≤◌, ◌<◌, ◌++◌, None, codes, length};
ghost use Rattle.std.specs.Fmt.{decimal};
ghost use Rattle.integral_model.specs.Integral.{TakesEvent};
ghost use Rattle.answer_model.specs.Faults.{event_fault};
ghost use Rattle.answer_model.specs.Texts.{shown};
ghost use Rattle.billing_memory.specs.Records.{record_view};
ghost use Rattle.event_script.specs.Views.{IsEvent, event_view};
ghost use Rattle.meter_config.specs.Views.{settings_of};
ghost use Rattle.run_engine.specs.Dry.{dry_opening, dry_settings};
ghost use Rattle.command_words.specs.Command.{IsLoad, max_generated};
ghost use Rattle.meter_cli.specs.Gen.{IsGenText, StandsForEvents};

use answer_lines::{LINE_ROOM, push_register};
use arrayvec::ArrayString;
use billing_memory::MeterRecord;
use command_words::Load;
use event_script::Event;
use itoa::Buffer;
use load_gen::Script;
use meter_config::Config;
use meter_core::Meter;

/// Meters generated events in the standard configuration, from a record that has counted nothing: `gen COUNT` and the
/// number of events, the litres, the energy and its bound in millijoules.
#[tactic(auto, using(crate::proofs::Events::near))]
pub fn gen_line(load: Load) -> ArrayString<LINE_ROOM>
    requires { IsLoad load }
    ensures text { IsGenText load.seed load.count result.bytes }
    ensures some { 0 < length result.bytes }
{
    let meter = meter_after(load.seed, load.count);
    record_line(load.count, meter.config(), meter.state())
}

// A meter that has taken the first `count` events.
fn meter_after(seed: u64, count: u32) -> Meter
    requires { count ≤ max_generated }
    ensures settings { settings_of result.config ≡ dry_settings }
    ensures events { StandsForEvents seed count (record_view result.record) }
{
    let mut script = Script::from_number(seed, count);
    let mut meter = standard_meter();
    while let Some(event) = script.next_event() {
        take(&mut meter, &event);
    }
    meter
}

// A meter of the standard configuration that has counted nothing.
fn standard_meter() -> Meter
    ensures settings { settings_of result.config ≡ dry_settings }
    ensures opening { record_view result.record ≡ dry_opening }
{
    let config = Config::standard();
    Meter::start(config, MeterRecord::opening(config.opening_day))
}

// Takes an event that the record doesn't refuse.
fn take(meter: &mut Meter, event: &Event)
    requires event { IsEvent event.now }
    requires taken { event_fault (record_view meter.old.record) (event_view event.now) ≡ None }
    ensures takes { TakesEvent (settings_of meter.old.config) (record_view meter.old.record) (event_view event.now) (record_view meter.new.record) }
    ensures config { meter.new.config ≡ meter.old.config }
{
    meter.apply(event).unwrap()
}

#[tactic(auto, using(std::proofs::lemmas::List::append_assoc))]
fn record_line(count: u32, config: &Config, meter_record: &MeterRecord) -> ArrayString<LINE_ROOM>
    ensures text { result.bytes ≡ codes "gen " ++ decimal count ++ codes " " ++ shown (settings_of config.now) (record_view meter_record.now) ++ codes "\n" }
    ensures some { 0 < length result.bytes }
{
    let mut digits = Buffer::new();
    let mut line = ArrayString::new();
    line.push_str("gen ");
    line.push_str(digits.format(count));
    line.push_str(" ");
    line.push_str(digits.format(meter_record.seq));
    line.push_str(" ");
    push_register(&mut line, config, &meter_record.register);
    line.push_str("\n");
    line
}
