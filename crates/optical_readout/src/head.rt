//! What the head hears, and what it answers.
ghost use Rattle.std.specs.Prelude.{ℕ, ◌≤◌, List, Option, None, Some, IfSome};
ghost use Rattle.std.specs.Option.{option_map};
ghost use Rattle.arrayvec.specs.ArrayVec.{array_vec_len};
ghost use Rattle.config_model.specs.Configuration.{Configuration};
ghost use Rattle.optical_model.specs.Replies.{Replies};
ghost use Rattle.meter_config.specs.Views.{config_view};
ghost use Rattle.billing_memory.specs.Records.{record_view};

use crate::message::{data_message, identification};
use crate::request::{is_data_select, is_request};
use arrayvec::ArrayVec;
use billing_memory::MeterRecord;
use meter_config::Config;

/// The room of a reply, in bytes.
pub const REPLY_ROOM: usize = 2048;

/// The optical head of a meter. A request selects the meter, and an option select directly after it
/// asks for the data message.
#[derive(Clone, Copy, Debug, PartialEq, Eq)]
pub struct Optical {
    // Whether the last message is a request to this meter.
    selected: bool,
}

impl Optical {
    ghost use Rattle.optical_readout.specs.Heard.{Heard};

    /// A head that has heard nothing since the start.
    pub fn new() -> Optical
        ensures { (c : Configuration) → Heard c None result }
    {
        Optical { selected: false }
    }

    /// Hears a message, and gives the reply to it. A request is `/?`, an address of at most 32 letters,
    /// digits and spaces, `!` CR LF; it is this meter's where the address is empty or, but for zeros at
    /// the front of either, the serial number. The reply to it is the identification. The reply to an
    /// option select, ACK `0` Z `0` CR LF with Z from `0` to `6`, directly after such a request is the
    /// data message of the record `m`. There is no other reply. A reply has at most 1,830 bytes.
    pub fn hear(
        &mut self,
        message: &[u8],
        c: &Config,
        m: &MeterRecord,
    ) -> Option<ArrayVec<u8, REPLY_ROOM>>
        ensures reply { (last : Option (List ℕ)) → Heard (config_view c.now) last self.old
            → Replies (config_view c.now) (record_view m.now) last message.now (option_map (λ reply. reply.items) result) }
        ensures heard { Heard (config_view c.now) (Some message.now) self.new }
        ensures size { IfSome result (λ reply. array_vec_len reply ≤ 1830) }
    {
        let selected = self.selected;
        self.selected = is_request(message, c);
        if self.selected {
            Some(identification(c))
        } else if selected && is_data_select(message) {
            Some(data_message(c, m))
        } else {
            None
        }
    }
}
