//! One term of region 1 of IAPWS-IF97 at a pressure and over a span of temperatures, in enclosures.
#![tactic(auto)]

mod monomial;
mod powers;
mod pressure;
mod tau;
mod variables;

pub use pressure::PressureVariable;
pub use tau::TauVariables;
pub use variables::Variables;
