//! The configuration of a heat meter, and how it is read from a text.
#![tactic(auto)]

mod calibration;
mod config;
mod fault;
mod keys;
mod read;
mod values;

pub use config::Config;
pub use fault::ConfigFault;
pub use keys::key_name;
pub use read::read_config;
