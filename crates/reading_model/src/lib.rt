//! What the bytes of a readout say: a telegram of the M-Bus (EN 13757-2 and -3), and a data message of
//! the optical head (IEC 62056-21). Definitions in `specs/`, and laws of them in `proofs/`.
#![tactic(auto)]
