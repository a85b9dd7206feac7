//! What slopes above 0 say. Laws alone, which compute nothing.

ghost use Rattle.std.specs.Prelude.{ℕ};
ghost use Rattle.metering_model.specs.Settings.{Settings};
ghost use Rattle.slope_model.specs.Slope.{EachSegmentRises, EnthalpyRises};
ghost use Rattle.slope_cert.specs.Meters.{MetersRising, CountedLitresHeat, IntegralNeverFalls};

/// A law: where the slopes of each segment lie above 0, the enthalpy rises between any two temperatures from 0 to
/// 180 °C, in one segment or several.
pub fn segments_join()
    ensures { (p : ℕ) → EachSegmentRises p → EnthalpyRises p }
{}

/// A law: at a pressure at which the enthalpy rises, each counted litre gives off energy above 0, and the exact
/// integral never falls as events are appended, whatever the temperatures in the cells.
pub fn metered_energy_never_falls()
    ensures litres { (c : Settings) → MetersRising c → CountedLitresHeat c }
    ensures integral { (c : Settings) → MetersRising c → IntegralNeverFalls c }
{}
