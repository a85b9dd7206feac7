//! What a meter's record means: metering events, the events that are kept, which count, and the record that
//! stands for them. Definitions, in `specs/`, and laws of them.
#![tactic(auto)]
