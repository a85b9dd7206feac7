//! What a frame asks of the meter.
ghost use Rattle.std.specs.Prelude.{◌≡◌};
ghost use Rattle.slave_model.specs.Heard as model;
ghost use Rattle.frame_model.specs.Frames.{Short};
ghost use Rattle.mbus_link.specs.Views.{frame_view};
ghost use Rattle.meter_config.specs.Views.{config_view};
ghost use Rattle.mbus_records.specs.Orders.{Orders};

use mbus_link::Frame;
use meter_config::Config;

// Control fields (EN 13757-2) of a reset, and of a request with the frame count bit off and on.
const SND_NKE: u8 = 0x40;

const REQ_UD2: u8 = 0x5B;

const REQ_UD2_COUNTED: u8 = 0x7B;

/// The address of whichever slave there is.
const ANY: u8 = 0xFE;

/// The address of all slaves, none of which replies.
const ALL: u8 = 0xFF;

/// What a frame asks of the meter.
#[derive(Clone, Copy, Debug, PartialEq, Eq)]
pub(crate) enum Order {
    /// To be idle, and to acknowledge it.
    Reset,
    /// To be idle.
    ResetOfAll,
    /// To send a telegram; another one than before where the control field is another one.
    Request { control: u8 },
    /// Nothing.
    Nothing,
}

/// What a frame asks of the meter.
pub(crate) fn order_of(f: &Frame, c: &Config) -> Order
    ensures { Orders (config_view c.now) (frame_view f.now) result }
{
    match f {
        Frame::Short { c: control, a } => short_order(*control, *a, c),
        _ => Order::Nothing,
    }
}

fn short_order(control: u8, a: u8, c: &Config) -> Order
    ensures { Orders (config_view c.now) (Short control a) result }
{
    if control == SND_NKE && a == ALL {
        Order::ResetOfAll
    } else if !is_own(a, c) {
        Order::Nothing
    } else if control == SND_NKE {
        Order::Reset
    } else if control == REQ_UD2 || control == REQ_UD2_COUNTED {
        Order::Request { control }
    } else {
        Order::Nothing
    }
}

fn is_own(a: u8, c: &Config) -> bool
    ensures { result ≡ model.is_own (config_view c.now) a }
{
    a == c.address || a == ANY
}
