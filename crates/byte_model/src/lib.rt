//! What bytes are.
//! Definitions alone, in `specs/`.
#![tactic(auto)]
