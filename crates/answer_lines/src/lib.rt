//! The lines that answer a question, and those that show a record or a readout, as texts.
#![tactic(auto)]

mod bench;
mod line;
mod messages;
mod physics;
mod shows;
mod telegrams;

pub use bench::{calc_line, flow_line, pair_line};
pub use line::LINE_ROOM;
pub use messages::message_lines;
pub use physics::{coef_line, temp_line, water_line};
pub use shows::{push_register, show_lines};
pub use telegrams::telegram_lines;
