//! How large and how wide enclosures are, kept as numbers that a proof computes.
#![tactic(auto)]
