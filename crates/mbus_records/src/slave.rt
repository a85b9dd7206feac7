//! The meter as a slave on the bus.
ghost use Rattle.std.specs.Prelude.{◌≡◌, ◌++◌, ◌∷◌, ◌≤◌, [], List, IfSome};
ghost use Rattle.std.specs.Option.{option_map};
ghost use Rattle.config_model.specs.Configuration.{Configuration};
ghost use Rattle.telegram_model.specs.Telegram.{body_length};
ghost use Rattle.slave_model.specs.Heard.{Heard};
ghost use Rattle.slave_model.specs.Replies.{reply_to};
ghost use Rattle.mbus_link.specs.Views.{frame_view};
ghost use Rattle.billing_memory.specs.Records.{record_view};
ghost use Rattle.meter_config.specs.Views.{config_view};

use crate::compose::telegram;
use crate::order::{Order, order_of};
use crate::reading::Reading;
use billing_memory::MeterRecord;
use mbus_link::Frame;
use meter_config::Config;

/// A meter on the bus. It is idle at the start and after a reset. A request begins a reading, which freezes
/// the record in force. The next request with another control field gets the next telegram of the reading,
/// and where there is none begins another one; a request with the same control field gets the same telegram
/// again.
#[derive(Debug, PartialEq, Eq, Drop)]
pub struct Slave {
    // None while idle.
    reading: Option<Reading>,
    // The access number of the next new telegram.
    access: u8,
}

impl Slave {
    ghost use Rattle.mbus_records.specs.State.{IsAfter, TakesRequest, heard_now, last_reply_of};
    ghost use Rattle.mbus_records.specs.Readings.{is_repeated};

    /// A slave that has heard nothing since the start.
    pub fn new() -> Slave
        ensures { (c : Configuration) → IsAfter c [] result }
    {
        Slave {
            reading: None,
            access: 0,
        }
    }

    /// Hears a frame, and gives the reply to it, where `m` is the record in force. A frame is for the meter
    /// where its address is the meter's, FE or FF (hexadecimal). A reset, a short frame with the control field
    /// 40, is acknowledged unless it was sent to FF. A request, a short frame with the control field 5B or 7B
    /// and not sent to FF, gets a [`telegram`]. Each new telegram has the next access number, modulo 256, which
    /// a reset doesn't change. There is no other reply. The body of a reply has at most 165 bytes.
    pub fn hear(&mut self, f: &Frame, c: &Config, m: &MeterRecord) -> Option<Frame>
        ensures reply { (heard : List Heard) → IsAfter (config_view c.now) heard self.old
            → option_map frame_view result ≡ reply_to (config_view c.now) heard (heard_now f.now m.now) }
        ensures after { (heard : List Heard) → IsAfter (config_view c.now) heard self.old
            → IsAfter (config_view c.now) (heard ++ heard_now f.now m.now ∷ []) self.new }
        ensures size { IfSome result (λ frame. body_length (frame_view frame) ≤ 165) }
    {
        match order_of(f, c) {
            Order::Reset => {
                self.reading = None;
                Some(Frame::Ack)
            }
            Order::ResetOfAll => {
                self.reading = None;
                None
            }
            Order::Request { control } => {
                self.take_request(control, m);
                self.last_reply(c)
            }
            Order::Nothing => None,
        }
    }

    // Takes a request with a control field.
    fn take_request(&mut self, control: u8, m: &MeterRecord)
        ensures { TakesRequest control (record_view m.now) self.old self.new }
    {
        if self.repeats(control) {
            return;
        }
        self.reading = Some(Reading::next(self.reading.take(), control, m));
        self.access = self.access.wrapping_add(1);
    }

    // Whether the last request since the reset has this control field.
    fn repeats(&self, control: u8) -> bool
        ensures { result ≡ is_repeated self.now.reading control }
    {
        match &self.reading {
            Some(reading) => reading.control == control,
            None => false,
        }
    }

    // The reply to the last request.
    fn last_reply(&self, c: &Config) -> Option<Frame>
        ensures frame { option_map frame_view result ≡ last_reply_of (config_view c.now) self.now }
        ensures size { IfSome result (λ frame. body_length (frame_view frame) ≤ 165) }
    {
        match &self.reading {
            Some(reading) => telegram(
                c,
                &reading.frozen,
                reading.number,
                self.access.wrapping_sub(1),
            ),
            None => None,
        }
    }
}
