//! What is shown of a meter's memory: the lines that tell its configuration and its record. Definitions alone, in
//! `specs/`.
#![tactic(auto)]
