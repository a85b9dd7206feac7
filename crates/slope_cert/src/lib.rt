//! A certificate that the enthalpy of water rises with the temperature at a pressure: for each degree
//! from 0 to 180 °C a range that holds each slope of IAPWS-IF97's region 1 within that degree.
#![tactic(auto)]

mod curvature;
mod factor;
mod laws;
mod slopes;

pub use laws::{metered_energy_never_falls, segments_join};
pub use region1_terms::PressureVariable;
pub use slopes::{Incline, rises, slope, slope_at};
