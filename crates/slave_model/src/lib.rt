//! What a meter replies as a slave on the M-Bus, after EN 13757-2: resets, requests that advance or
//! repeat, and readings of frozen records. Definitions in `specs/`, and worked replies in `proofs/`.
#![tactic(auto)]
