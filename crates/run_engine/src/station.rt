//! A meter over a memory, with its readouts.
ghost use Rattle.std.proofs.Common.{refl, ◌∙◌};
ghost use Rattle.std.specs.Prelude.{◌≡◌, ◌+◌, ◌<◌, ℕ, List, [], None, Err, OnOk};
ghost use Rattle.trace_model.specs.Trace.{base_of};
ghost use Rattle.trace_model.specs.Images.{NothingPending};
ghost use Rattle.config_model.specs.Configuration.{Configuration};
ghost use Rattle.metering_model.specs.Records as metering;
ghost use Rattle.script_model.specs.Grammar as grammar;
ghost use Rattle.event_script.specs.Next.{IsFirst, SaysAt};
ghost use Rattle.event_script.specs.Views.{IsEvent, event_view};
ghost use Rattle.meter_board.specs.Causes.{CausedBy};
ghost use Rattle.optical_readout.specs.Heard.{Heard};
ghost use Rattle.mbus_records.specs.State.{IsAfter};
ghost use Rattle.register_store.specs.Commits.{StandsOn};
ghost use Rattle.register_store.specs.Recovered.{side_view};
ghost use Rattle.run_engine.specs.Stops.{HaltCause, StopCause, ended_by, ended_halted};

use crate::answering::Answerer;
use crate::answers::{acknowledge, answer_bytes, answer_message, hold, order_cut, tell_recovered};
use crate::events::take_event;
use crate::stop::{Halt, Stop};
use event_script::{Event, Line};
use mbus_records::Slave;
use meter_board::{Board, Failed, Refusal};
use meter_core::Meter;
use optical_readout::Optical;
use register_store::{Side, Unreadable, recover};

/// A meter whose record the memory holds, its optical head, and it as a slave on the bus.
#[derive(Drop)]
pub(crate) struct Station {
    meter: Meter,
    // The side of the memory that holds the record.
    side: Side,
    optical: Optical,
    slave: Slave,
}

impl Station {
    ghost use Rattle.run_engine.specs.Progress.{Readiness, NextOrOutcome};
    ghost use Rattle.run_engine.specs.Steps.{GoesOn, RestartGives};

    /// A meter that has been read out by nobody since the start.
    pub(crate) fn start(meter: Meter, side: Side) -> Station
        ensures meter { result.meter ≡ meter }
        ensures side { result.side ≡ side }
        ensures head { (c : Configuration) → Heard c None result.optical }
        ensures bus { (c : Configuration) → IsAfter c [] result.slave }
    {
        Station {
            meter,
            side,
            optical: Optical::new(),
            slave: Slave::new(),
        }
    }

    // Takes an event, lets the memory hold it, and acknowledges it. Where the power fails meanwhile, the station is
    // started anew from what the memory holds then: with the event, or without it.
    fn answer_event<B: Board>(&mut self, event: &Event, board: &mut B) -> Result<(), Stop>
        requires range { IsEvent event.now }
        requires settled { B.tells → NothingPending (B.trace board.old) }
        requires stands { B.tells → StandsOn (side_view self.old.side) (B.reads board.old) }
        ensures leads { B.tells → (c : Configuration) (o : metering.MeterRecord) (script rest line after : List ℕ) (taken : ℕ)
            → Readiness c o script rest taken self.old (B.reads board.old) (B.trace board.old) → IsFirst rest line after → SaysAt taken line (grammar.Metering (event_view event.now))
            → NextOrOutcome c o script after (taken + 1) self.new (B.reads board.new) (B.trace board.new) (ended_by (taken + 1)) result }
        ensures goes_on { B.tells → GoesOn result (B.trace board.old) (B.trace board.new) (B.faults board.old) (B.faults board.new) }
        ensures stands { B.tells → OnOk result (StandsOn (side_view self.new.side) (B.reads board.new)) }
        ensures cause { CausedBy StopCause (B.faults board.old) (B.faults board.new) result }
    {
        match take_event(event, &mut self.meter) {
            Ok(()) => {}
            Err(kind) => return Err(Stop::Refused(kind)),
        }
        match hold(&self.meter, self.side, board) {
            Ok(side) => {
                self.side = side;
                match acknowledge(&self.meter, board) {
                    Ok(()) => Ok(()),
                    Err(Failed) => Err(Stop::Halted(Halt::Write)),
                }
            }
            Err(Refusal::Cut) => match self.restart(board) {
                Ok(()) => Ok(()),
                Err(halt) => Err(Stop::Halted(halt)),
            },
            Err(Refusal::Failed) => Err(Stop::Halted(Halt::Unread(Unreadable::Memory))),
        }
    }

    // Lets the power fail, and starts anew.
    fn answer_power<B: Board>(&mut self, board: &mut B) -> Result<(), Halt>
        requires settled { B.tells → NothingPending (B.trace board.old) }
        ensures leads { B.tells → (c : Configuration) (o : metering.MeterRecord) (script rest line after : List ℕ) (taken : ℕ)
            → Readiness c o script rest taken self.old (B.reads board.old) (B.trace board.old) → IsFirst rest line after → SaysAt taken line grammar.Power
            → NextOrOutcome c o script after (taken + 1) self.new (B.reads board.new) (B.trace board.new) ended_halted result }
        ensures goes_on { B.tells → GoesOn result (B.trace board.old) (B.trace board.new) (B.faults board.old) (B.faults board.new) }
        ensures stands { B.tells → OnOk result (StandsOn (side_view self.new.side) (B.reads board.new)) }
        ensures cause { CausedBy HaltCause (B.faults board.old) (B.faults board.new) result }
    {
        match board.power() {
            Ok(()) => self.restart(board),
            Err(Failed) => Err(Halt::Unread(Unreadable::Memory)),
        }
    }

    // Starts anew from what the memory holds after a power failure, and tells it.
    fn restart<B: Board>(&mut self, board: &mut B) -> Result<(), Halt>
        ensures gives { B.tells → RestartGives (B.reads board.old) (B.trace board.old) self.new (B.trace board.new) result }
        ensures reads { B.tells → B.reads board.new ≡ B.reads board.old }
        ensures goes_on { B.tells → GoesOn result (B.trace board.old) (B.trace board.new) (B.faults board.old) (B.faults board.new) }
        ensures stands { B.tells → OnOk result (StandsOn (side_view self.new.side) (B.reads board.new)) }
        ensures cause { CausedBy HaltCause (B.faults board.old) (B.faults board.new) result }
    {
        match recover(board) {
            Ok((config, recovered, side)) => {
                *self = Station::start(Meter::start(config, recovered), side);
                match tell_recovered(&self.meter, board) {
                    Ok(()) => Ok(()),
                    Err(Failed) => Err(Halt::Write),
                }
            }
            Err(fault) => Err(Halt::Unread(fault)),
        }
    }
}

impl<B: Board> Answerer<B> for Station {
    ghost use Rattle.run_engine.specs.Progress.{Readiness};
    ghost use Rattle.run_engine.specs.Steps.{CountsCuts};
    ghost use Rattle.run_engine.specs.OutcomeOnMemory.{OutcomeOnMemory};

    ghost Opening = { Configuration × metering.MeterRecord };

    ghost IsSettled = { λ station board. B.tells → NothingPending (B.trace board) × StandsOn (side_view station.side) (B.reads board) };

    ghost Readiness = { λ station board opening script rest n. Readiness opening.0 opening.1 script rest n station (B.reads board) (B.trace board) };

    ghost Leaves = { λ board opening script ended. OutcomeOnMemory opening.0 opening.1 script (B.trace board) ended };

    ghost MayEnd = { λ _. Unit {0} };

    ghost GoesOn = { λ old new. (B.tells → base_of (B.trace new) ≡ base_of (B.trace old)) × (B.tells → CountsCuts (B.trace old) (B.trace new) (B.faults old).cuts (B.faults new).cuts) };

    fn answer(&mut self, said: &Line, message: &[u8], board: &mut B) -> Result<(), Stop> {
        match said {
            Line::Metering(event) => self.answer_event(event, board),
            Line::Power => match self.answer_power(board) {
                Ok(()) => Ok(()),
                Err(halt) => Err(Stop::Halted(halt)),
            },
            Line::Cut { n, keep, fill } => match order_cut(*n, *keep, *fill, board) {
                Ok(()) => Ok(()),
                Err(fault) => Err(Stop::from(fault)),
            },
            Line::Opt => match answer_message(message, &self.meter, &mut self.optical, board) {
                Ok(()) => Ok(()),
                Err(Failed) => Err(Stop::Halted(Halt::Write)),
            },
            Line::Mbus => match answer_bytes(message, &self.meter, &mut self.slave, board) {
                Ok(()) => Ok(()),
                Err(Failed) => Err(Stop::Halted(Halt::Write)),
            },
        }
    }

    ghost may_end_reading = { (tt, (λ _ _. tt), tt) };

    ghost stays = { λ _. ((λ _. refl), (λ _ _ enough. enough)) };

    ghost goes_further = { λ _ _ _ first second. ((λ tells. second.0 tells ∙ first.0 tells), (λ tells from enough. second.1 tells from (first.1 tells from enough))) };
}
