//! Numbers enclosed between two mantissas, exact comparison of ratios, and spans of temperature.
#![tactic(auto)]

mod enc;
mod powers;
mod products;
mod quotients;
mod ratio;
mod rounding;
mod span;

pub use enc::Enc;
pub use ratio::Ratio;
pub use span::Span;
