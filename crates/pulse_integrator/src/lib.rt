//! The energy of pulses at the samples in force: what they add, with a bound of its error.
#![tactic(auto)]

mod bounded;
mod origin;
mod per_litre;
mod rate;

pub use bounded::energies_are_bounded;
pub use origin::Origin;
pub use rate::Rate;
