//! The ranges of the volume and of the enthalpy of region 1 of IAPWS-IF97, as facts on the definitions.
#![tactic(auto)]
