//! The configuration of a meter, in the words of the definitions. Definitions alone, in `specs/`.
#![tactic(auto)]
