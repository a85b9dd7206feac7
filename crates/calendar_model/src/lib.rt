//! The days and months of 2000 to 2099, and the entries of a meter's memory at first days of
//! months. Definitions in `specs/`, after the calendar of ISO 8601, and laws of them in `proofs/`.
#![tactic(auto)]
