//! Definitions: what a meter's memory must hold at each moment of a run.
#![tactic(auto)]
