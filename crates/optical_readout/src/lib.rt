//! The optical head of a heat meter after IEC 62056-21: it hears whole messages, and says what the
//! meter has counted.
#![tactic(auto)]

mod block;
mod head;
mod message;
mod push;
mod request;

pub use head::{Optical, REPLY_ROOM};
