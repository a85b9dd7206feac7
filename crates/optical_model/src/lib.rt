//! The optical readout of a meter after IEC 62056-21: requests, identification, option selects and
//! data messages, each a whole message. Definitions alone, in `specs/`.
#![tactic(auto)]
