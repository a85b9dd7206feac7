//! Fractions, rounding and enclosures, with the laws that they keep.
#![tactic(auto)]
