//! Tables of decimal coefficients with their exponents, and the coefficients enclosed at a binary scale.
#![tactic(auto)]

mod collapsing;
mod decimal;
mod division;
mod factor;
mod part;
mod poly;
mod region1;
mod scaled;
mod step;
mod table;

pub use collapsing::collapse;
pub use decimal::enclose;
pub use part::Part;
pub use poly::Poly;
pub use region1::region1_table;
pub use table::{Table, Term};
