//! Which texts are accepted as configurations, and why another is refused. Definitions alone, in
//! `specs/`.
#![tactic(auto)]
