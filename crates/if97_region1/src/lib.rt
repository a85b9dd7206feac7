//! Specific volume and specific enthalpy of water after IAPWS-IF97, region 1, in certified enclosures.
#![tactic(auto)]

mod constants;
mod heat;
mod joined;
mod polys;
mod variables;
mod water;

pub use polys::Polys;
pub use region1_terms::Variables;
pub use water::{Pressure, Water};
