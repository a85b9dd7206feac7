//! The top call of the heat meter: what the program does.
#![tactic(auto)]

mod answer;
mod cert;
mod generated;
mod init;
mod puts;
mod readout;
mod show;
mod slots;
mod status;
mod top_call;

pub use status::{Status, status_code, status_line};
pub use top_call::meter;
