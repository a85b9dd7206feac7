//! What a memory that is right at a moment holds, and how runs join. Laws alone, which compute nothing.

ghost use Rattle.std.specs.Prelude.{◌≡◌, ℕ, List, ◌++◌, true};
ghost use Rattle.metering_model.specs.Events.{Kept};
ghost use Rattle.metering_model.specs.Settings.{Settings};
ghost use Rattle.metering_model.specs.Records.{MeterRecord, StandsFor};
ghost use Rattle.integral_model.specs.Integral.{AllFit, AllFitWithMargin, AllFitClosely};
ghost use Rattle.integral_model.specs.Near.{AreNear, HasChoice};
ghost use Rattle.config_model.specs.Configuration.{Configuration, is_calibration};
ghost use Rattle.parts_model.specs.Ranges.{is_sensor};
ghost use Rattle.trace_model.specs.Trace.{Trace};
ghost use Rattle.trace_model.specs.Output.{OutputLine};
ghost use Rattle.pairing_model.specs.Settings.{settings_for};
ghost use Rattle.pairing_model.specs.Setup.{Setup};
ghost use Rattle.recovery_model.specs.Bounded.{HoldsBounded};
ghost use Rattle.recovery_model.specs.Decided.{LinesDecide};
ghost use Rattle.recovery_model.specs.Right.{IsRight};

/// A law: where the memory is right, the energy that its record has gained since the opening record differs from the
/// exact integral over the very events that the output lines keep, or over these and the one under way where the
/// memory has it, whatever the temperatures in the cells, by at most the bound that it has gained, and by at most
/// 600 mJ a counted litre. That bound is at most 2,000 mJ a counted litre.
pub fn held_energy_is_bounded()
    ensures { (c : Configuration) (o : MeterRecord) (lines : List (List ℕ)) (moment : Trace) (image : List ℕ) (right : IsRight c o lines moment image) → HoldsBounded c o lines moment image right }
{}

/// A law: events that fit with margin are as near to their exact integral: those of a run, of `dry` and of `gen` too.
pub fn fitting_events_are_near()
    ensures { (c : Configuration) (o : MeterRecord) (events : List Kept) → is_sensor c.sensor_ohm ≡ true → is_calibration c.sensor_ohm c.calibration ≡ true → AllFitWithMargin (settings_for c) o events → AreNear (settings_for c) o events }
{}

/// A law: whatever the events, there are temperatures that their samples stand for. So what is said of every choice of
/// them is said of something.
pub fn temperatures_exist()
    ensures { (c : Configuration) (o : MeterRecord) (events : List Kept) → is_sensor c.sensor_ohm ≡ true → is_calibration c.sensor_ohm c.calibration ≡ true → HasChoice (settings_for c) o events }
{}

/// A law: a script and its output lines decide the journal: which events were kept, with which energies and bounds.
pub fn lines_decide_the_journal()
    ensures { (s : Setup) (o : MeterRecord) (lines : List (List ℕ)) (outputs : List OutputLine) → LinesDecide s o lines outputs }
{}

/// A law: where a record stands for an opening record and some events, and another stands for that record and further
/// events, it stands for the opening record and all of them; and where both fit, so do all. So a memory that was
/// formatted and has seen several runs stands for its whole history.
pub fn histories_join()
    ensures stands { (c : Settings) (o m r : MeterRecord) (hs ls : List Kept) → StandsFor c o hs m → StandsFor c m ls r → StandsFor c o (hs ++ ls) r }
    ensures fit { (c : Settings) (o m : MeterRecord) (hs ls : List Kept) → StandsFor c o hs m → AllFit c o hs → AllFit c m ls → AllFit c o (hs ++ ls) }
    ensures margin { (c : Settings) (o m : MeterRecord) (hs ls : List Kept) → StandsFor c o hs m → AllFitWithMargin c o hs → AllFitWithMargin c m ls → AllFitWithMargin c o (hs ++ ls) }
    ensures closely { (c : Settings) (o m : MeterRecord) (hs ls : List Kept) → StandsFor c o hs m → AllFitClosely c o hs → AllFitClosely c m ls → AllFitClosely c o (hs ++ ls) }
{}
