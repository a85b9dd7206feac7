//! Frames of the M-Bus link layer and their bytes, after EN 13757-2. Definitions in `specs/`, and
//! laws of them in `proofs/`.
#![tactic(auto)]
