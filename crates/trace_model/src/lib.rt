//! What happens to a meter's board: its trace, and the output lines in it. Definitions alone, in
//! `specs/`, with a few laws in `proofs/`.
#![tactic(auto)]
