//! The events that a number generates: a long valid run of a meter, for trials under load. Definitions alone, in
//! `specs/`.
#![tactic(auto)]
