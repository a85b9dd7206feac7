//! What a meter's display of eight digits shows. Definitions alone, in `specs/`.
#![tactic(auto)]
