//! Specific volume and specific enthalpy of water in region 1 of IAPWS-IF97, as definitions.
#![tactic(auto)]
