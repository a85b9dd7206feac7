//! The sums of region 1 of IAPWS-IF97 at one pressure as polynomials of the temperature.
#![tactic(auto)]
