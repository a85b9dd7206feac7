//! The energy that a litre of water gives off, and the heat coefficient of EN 1434-1, between whole numbers.
#![tactic(auto)]

mod factor;
mod litre;
mod quotient;
mod water_heat;

pub use factor::{Factor, coeff};
pub use litre::{Litre, litre_energy};
