//! The state of a meter, and what events do to it.

ghost use Rattle.std.specs.Prelude.{◌≡◌, ◌∷◌, [], ℕ, ◌<◌, ◌≤◌, pos, Option, Some, OnErr, OnOk};
ghost use Rattle.std.specs.Int.{IsInRange};
ghost use Rattle.metering_model.specs.Limits.{max_events, max_months, max_pulses};
ghost use Rattle.metering_model.specs.Events.{Sample, Pulse, Date};
ghost use Rattle.metering_model.specs.Settings.{Settings};
ghost use Rattle.metering_model.specs.Records.{StandsFor};
ghost use Rattle.billing_memory.specs.Records.{record_view};
ghost use Rattle.event_script.specs.Views.{event_view, IsEvent};
ghost use Rattle.meter_config.specs.Views.{settings_of};
ghost use Rattle.pulse_integrator.specs.Adds.{AreInForce};
ghost use Rattle.pulse_integrator.specs.Pulses.{unit_of};
ghost use Rattle.pulse_integrator.proofs.InForce.{AreInForce-prop};
ghost use Rattle.meter_core.specs.Events.{Takes};
ghost use Rattle.meter_core.specs.Pulses.{Raises};

use crate::Refused;
use billing_memory::{Day, MAX_EVENTS, MeterRecord};
use event_script::Event;
use if97_region1::Water;
use meter_config::Config;
use pulse_integrator::Rate;
use sensor_pair::Pair;

/// A meter: its configuration, the record that it keeps, and the rate at the samples in force, which is made where
/// they come into force and not for each pulse.
#[derive(Drop)]
pub struct Meter {
    config: Config,
    record: MeterRecord,
    // Water at the pressure of the configuration.
    water: Water,
    rate: Rate,
    pub ghost pressure: { water.p_kpa ≡ config.pressure_kpa },
    pub ghost per_pulse: { rate.per_pulse ≡ config.per_pulse },
    pub ghost in_force: { AreInForce (settings_of config) record.samples rate.origin } by { AreInForce-prop (settings_of config) record.samples rate.origin },
}

impl Meter {
    /// A meter that goes on from a record.
    pub fn start(c: Config, m: MeterRecord) -> Meter
        ensures config { result.config ≡ c }
        ensures record { result.record ≡ m }
    {
        let water = Water::new(u32::from(c.pressure_kpa)).unwrap();
        let rate = rate_at(&c, &water, m.samples);
        Meter {
            config: c,
            record: m,
            water,
            rate,
        }
    }

    /// Takes an event. A sample replaces the samples in force, and the rate with them. Pulses add to the register
    /// what they carry at the samples in force, and to the faulty pulses where a sample is out of range: as many
    /// times what one pulse adds at the kept rate. A date moves the day on, with the entries of the months that it
    /// passes.
    ///
    /// # Errors
    /// [`Refused::EventsFull`] exactly where the record has 10^18 events. Otherwise
    /// [`Refused::DateBack`] exactly for a date before the day in force, and [`Refused::PulsesFull`]
    /// exactly where the register would count more than 10^15 pulses. Nothing is changed then.
    #[inline(always)]
    pub fn apply(&mut self, e: &Event) -> Result<(), Refused>
        requires { IsEvent e.now }
        ensures takes { Takes (settings_of self.old.config) (record_view self.old.record) (event_view e.now) (record_view self.new.record) result }
        ensures unchanged { OnErr result (self.new ≡ self.old) }
        ensures config { self.new.config ≡ self.old.config }
        ensures raises { (n : ℕ) → e.now ≡ Event.Pulse n → OnOk result (Raises n (unit_of self.old.rate) self.old.record self.new.record) }
    {
        if self.record.seq == MAX_EVENTS {
            return Err(Refused::EventsFull {
                seq: self.record.seq,
            });
        }
        match *e {
            Event::Sample { rf, rr } => {
                let rate = rate_at(&self.config, &self.water, Some((rf, rr)));
                take_samples(&mut self.record, rf, rr);
                self.rate = rate;
                Ok(())
            }
            Event::Pulse { n } => take_pulses(&mut self.record, &self.rate, n),
            Event::Date { day } => take_date(&mut self.record, day, self.config.set_month),
        }
    }

    /// The rate at the samples in force: made from the configuration and these samples, or that of no samples.
    pub fn rate(&self) -> &Rate
        ensures kept { result.now ≡ self.now.rate }
        ensures per_pulse { result.now.per_pulse ≡ self.now.config.per_pulse }
        ensures in_force { AreInForce (settings_of self.now.config) self.now.record.samples result.now.origin }
    {
        &self.rate
    }

    /// The record.
    pub fn state(&self) -> &MeterRecord
        ensures { result.now ≡ self.now.record }
    {
        &self.record
    }

    /// The configuration.
    pub fn config(&self) -> &Config
        ensures { result.now ≡ self.now.config }
    {
        &self.config
    }
}

// The rate while these samples are in force. Pulses are many and samples few, so it stays a call.
#[inline(never)]
fn rate_at(config: &Config, water: &Water, samples: Option<(u32, u32)>) -> Rate
    requires { water.now.p_kpa ≡ config.now.pressure_kpa }
    ensures per_pulse { result.per_pulse ≡ config.now.per_pulse }
    ensures in_force { AreInForce (settings_of config.now) samples result.origin }
{
    match samples {
        None => Rate::none(config.per_pulse),
        Some((rf, rr)) => Rate::of(
            water,
            &Pair::of(config.sensor, config.cal),
            config.place,
            config.per_pulse,
            rf,
            rr,
        ),
    }
}

// Replaces the samples in force.
fn take_samples(m: &mut MeterRecord, rf: u32, rr: u32)
    requires { m.old.seq < max_events }
    ensures samples { m.new.samples ≡ Some (rf, rr) }
    ensures stands { (c : Settings) → c.kept_months ≡ max_months →
        StandsFor c (record_view m.old) (record { event = Sample rf rr; energy_mj = pos 0; bound_mj = 0 } ∷ [])
        (record_view m.new) }
{
    m.samples = Some((rf, rr));
    m.seq += 1;
}

// Counts pulses and what they carry.
fn take_pulses(m: &mut MeterRecord, rate: &Rate, n: u64) -> Result<(), Refused>
    requires room { m.old.seq < max_events }
    requires some { 1 ≤ n }
    requires most { n ≤ max_pulses }
    ensures takes { (c : Settings) → c.kept_months ≡ max_months → c.litres_per_pulse ≡ rate.now.per_pulse →
        AreInForce c m.old.samples rate.now.origin →
        Takes c (record_view m.old) (Pulse n) (record_view m.new) result }
    ensures raises { OnOk result (Raises n (unit_of rate.now) m.old m.new) }
    ensures samples { m.new.samples ≡ m.old.samples }
    ensures unchanged { OnErr result (m.new ≡ m.old) }
{
    let step = rate.add(n);
    let register = match m.register.after(step, n) {
        Ok(register) => register,
        Err(full) => return Err(Refused::PulsesFull { sum: full.sum }),
    };
    m.register = register;
    m.faulty += step.faulty;
    m.seq += 1;
    Ok(())
}

// Moves the day on.
#[inline(never)]
fn take_date(m: &mut MeterRecord, day: Day, set_month: u8) -> Result<(), Refused>
    requires room { m.old.seq < max_events }
    requires month { IsInRange 1 12 set_month }
    ensures takes { (c : Settings) → c.kept_months ≡ max_months → c.set_month ≡ set_month →
        Takes c (record_view m.old) (Date day.number) (record_view m.new) result }
    ensures samples { m.new.samples ≡ m.old.samples }
    ensures unchanged { OnErr result (m.new ≡ m.old) }
{
    match m.move_to(day, set_month) {
        Ok(()) => {
            m.seq += 1;
            Ok(())
        }
        Err(back) => Err(Refused::DateBack {
            in_force: back.in_force,
        }),
    }
}
