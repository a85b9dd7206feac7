//! The grammar of a script: its lines, their words, and what a line says. Definitions alone, in
//! `specs/`.
#![tactic(auto)]
