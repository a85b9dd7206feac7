//! The verdicts of a test bench on the parts of a heat meter: the calculator, the pair of temperature sensors
//! and the flow sensor. Definitions, in `specs/`, and laws of them.
#![tactic(auto)]
