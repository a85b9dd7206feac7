//! The telegrams in which a meter is read on the M-Bus, after EN 13757-3. Definitions in `specs/`,
//! and worked telegrams in `proofs/`.
#![tactic(auto)]
