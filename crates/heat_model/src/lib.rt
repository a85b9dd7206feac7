//! The energy that flowing water carries: the heat of a litre and the heat coefficient of EN 1434-1.
//! Definitions alone, in `specs/`.
#![tactic(auto)]
