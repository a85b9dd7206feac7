//! The messages of the meter.
ghost use Rattle.std.specs.Prelude.{◌≡◌, ◌≤◌, bit_xor};
ghost use Rattle.arrayvec.specs.ArrayVec.{array_vec_len};
ghost use Rattle.optical_model.specs.Messages as model;
ghost use Rattle.optical_model.specs.Messages.{IsDataMessage};
ghost use Rattle.billing_memory.specs.Records.{record_view};
ghost use Rattle.meter_config.specs.Views.{config_view};

use crate::block::push_block;
use crate::head::REPLY_ROOM;
use arrayvec::ArrayVec;
use billing_memory::MeterRecord;
use byte_lists::append;
use meter_config::Config;

/// Start and end of text, between which the data stands.
const STX: u8 = 0x02;

const ETX: u8 = 0x03;

/// The identification: the maker's letters and the name of the meter's kind.
pub(crate) fn identification(c: &Config) -> ArrayVec<u8, REPLY_ROOM>
    ensures items { result.items ≡ model.identification (config_view c.now) }
    ensures len { array_vec_len result ≡ 11 }
{
    let mut message = ArrayVec::new();
    append(&mut message, b"/");
    append(&mut message, &c.maker);
    append(&mut message, b"5HEAT\r\n");
    message
}

/// The data message of a record.
pub(crate) fn data_message(c: &Config, m: &MeterRecord) -> ArrayVec<u8, REPLY_ROOM>
    ensures data { IsDataMessage (config_view c.now) (record_view m.now) result.items }
    ensures len { array_vec_len result ≤ 1830 }
{
    let mut message = ArrayVec::new();
    message.push(STX);
    push_block(&mut message, c, m);
    append(&mut message, b"!\r\n");
    message.push(ETX);
    let check = check_character(&message.as_slice()[1..]);
    message.push(check);
    message
}

// The exclusive or of bytes, which is the block check character of ISO 1155.
fn check_character(bytes: &[u8]) -> u8
    ensures { result ≡ model.check_character bytes.now }
{
    let mut check = 0;
    for byte in bytes {
        check ^= byte;
    }
    check
}
