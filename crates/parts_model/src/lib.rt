//! What the configuration of a meter is made of: the place of the flow sensor, and the range of each part.
//! Definitions alone, in `specs/`.
#![tactic(auto)]
