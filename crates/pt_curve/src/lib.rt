//! Platinum resistance thermometers after IEC 60751, nominal and calibrated: resistance from temperature,
//! and temperature from resistance, exactly, from 0 to 180 °C.
#![tactic(auto)]

mod curve;

pub use curve::Curve;
