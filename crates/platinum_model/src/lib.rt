//! The curve of a platinum resistance thermometer, its samples and pairs of samples: definitions and laws.
#![tactic(auto)]
