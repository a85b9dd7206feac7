//! What the bytes of a meter's memory stand for, in the words of the definitions. Definitions alone, in `specs/`,
//! and in `proofs/` some memories that are read by them.
#![tactic(auto)]
