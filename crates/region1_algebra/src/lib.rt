//! The forms in which volume and enthalpy of region 1 are evaluated, and that they are the published
//! sums.
#![tactic(auto)]
