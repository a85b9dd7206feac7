//! When a line of a script is refused and for which fault, and the texts of output lines. Definitions alone, in
//! `specs/`, with a few laws in `proofs/`.
#![tactic(auto)]
