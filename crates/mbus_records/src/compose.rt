//! A telegram, composed.
ghost use Rattle.std.specs.Prelude.{◌≡◌, ◌+◌, ◌-◌, ◌*◌, ◌/◌, ◌≤◌, ◌++◌, ◌∷◌, [], if◌then◌else◌, length, IfSome};
ghost use Rattle.std.specs.Option.{option_map};
ghost use Rattle.std.specs.List.{list_all};
ghost use Rattle.arrayvec.specs.ArrayVec.{array_vec_len};
ghost use Rattle.telegram_model.specs.Telegram as model;
ghost use Rattle.telegram_model.specs.Telegram.{body_length};
ghost use Rattle.mbus_link.specs.Views.{frame_view};
ghost use Rattle.billing_memory.specs.Records.{record_view};
ghost use Rattle.billing_memory.specs.Entries.{set_day_view};
ghost use Rattle.meter_config.specs.Views.{config_view};
ghost use Rattle.meter_parts.specs.Views.{place_view};

use crate::months::push_months;
use crate::push::{ROOM, decimal_bytes, push_date, push_energy, push_entry, push_volume};
use crate::temps::push_samples;
use arrayvec::ArrayVec;
use billing_memory::{Entry, MeterRecord};
use byte_lists::append;
use mbus_link::Frame;
use meter_config::Config;
use meter_parts::Place;

// The control field of a slave's reply, and the control information of data behind a long header.
const RESPONSE: u8 = 0x08;

const DATA: u8 = 0x72;

/// The mark that a further telegram follows.
const MORE_FOLLOWS: u8 = 0x1F;

/// Telegram `k` of a reading of the record `frozen`, with an access number. Telegram 0 says what the meter
/// shows, its temperatures, its day and the entry of its set day. Each further one says up to eight month
/// entries, from the newest on. None exactly where `k` is above the number of month entries divided by 8,
/// rounded up. A body has at most 165 bytes.
pub fn telegram(c: &Config, frozen: &MeterRecord, k: u8, access: u8) -> Option<Frame>
    ensures frame { option_map frame_view result ≡ model.telegram (config_view c.now) (record_view frozen.now) k access }
    ensures size { IfSome result (λ frame. body_length (frame_view frame) ≤ 165) }
{
    if k > last_telegram(frozen) {
        return None;
    }
    let mut body = ArrayVec::new();
    push_header(&mut body, c, access);
    push_records(&mut body, c, frozen, k);
    push_mark(&mut body, k < last_telegram(frozen));
    Some(Frame::Long {
        c: RESPONSE,
        a: c.address,
        ci: DATA,
        body,
    })
}

/// The number of the last telegram of a record.
pub(crate) fn last_telegram(m: &MeterRecord) -> u8
    ensures { result ≡ (length (model.newest (record_view m.now)) + 7) / 8 }
{
    ((m.months.len() + 7) / 8) as u8
}

// Appends the serial number, the maker, the version, the medium, the access number, and a status and a
// signature of zero.
fn push_header(body: &mut ArrayVec<u8, ROOM>, c: &Config, access: u8)
    requires { array_vec_len body.old + 12 ≤ 252 }
    ensures items { body.new.items ≡ body.old.items ++ model.header (config_view c.now) access }
    ensures len { array_vec_len body.new ≡ array_vec_len body.old + 12 }
{
    append(body, &decimal_bytes(c.serial));
    append(body, &maker_code(c).to_le_bytes());
    append(body, &[c.version, medium(c.place), access, 0, 0, 0]);
}

// The maker's letters, five bits each, with A = 1.
fn maker_code(c: &Config) -> u16
    ensures { result ≡ model.maker_code c.now.maker }
{
    let [first, second, third] = c.maker;
    1024 * five_bits(first) + 32 * five_bits(second) + five_bits(third)
}

fn five_bits(letter: u8) -> u16
    requires above { 65 ≤ letter }
    requires below { letter ≤ 90 }
    ensures { result ≡ letter - 64 }
{
    u16::from(letter - 64)
}

// Heat, with the flow sensor in the return or in the flow.
fn medium(place: Place) -> u8
    ensures { result ≡ model.medium (place_view place) }
{
    match place {
        Place::Return => 0x04,
        Place::Flow => 0x0C,
    }
}

// Appends the data records of telegram `k`.
fn push_records(body: &mut ArrayVec<u8, ROOM>, c: &Config, m: &MeterRecord, k: u8)
    requires room { array_vec_len body.old + 152 ≤ 252 }
    requires there { k ≤ (length (model.newest (record_view m.now)) + 7) / 8 }
    ensures items { body.new.items ≡ body.old.items ++ model.records_of (config_view c.now) (record_view m.now) k }
    ensures len { array_vec_len body.new ≤ array_vec_len body.old + 152 }
{
    if k == 0 {
        push_first_records(body, c, m);
    } else {
        push_months(body, c, m.months.as_slice(), k);
    }
}

fn push_first_records(body: &mut ArrayVec<u8, ROOM>, c: &Config, m: &MeterRecord)
    requires { array_vec_len body.old + 152 ≤ 252 }
    ensures items { body.new.items ≡ body.old.items ++ model.first_records (config_view c.now) (record_view m.now) }
    ensures len { array_vec_len body.new ≤ array_vec_len body.old + 56 }
{
    push_energy(body, c, 0, &m.register);
    push_volume(body, c, 0, &m.register);
    push_samples(body, c, m.samples);
    push_date(body, 0, m.day);
    push_set_day(body, c, &m.set_day);
}

// Appends the entry of the set day, with storage number 1.
fn push_set_day(body: &mut ArrayVec<u8, ROOM>, c: &Config, set_day: &Option<Entry>)
    requires { array_vec_len body.old + 19 ≤ 252 }
    ensures items { body.new.items ≡ body.old.items ++ model.set_day_records (config_view c.now) (set_day_view set_day.now) }
    ensures len { array_vec_len body.new ≤ array_vec_len body.old + 19 }
{
    if let Some(entry) = set_day {
        push_entry(body, c, 1, entry);
    }
}

fn push_mark(body: &mut ArrayVec<u8, ROOM>, more: bool)
    requires { array_vec_len body.old ≤ 164 }
    ensures items { body.new.items ≡ body.old.items ++ (if more then 31 ∷ [] else []) }
    ensures len { array_vec_len body.new ≤ array_vec_len body.old + 1 }
{
    if more {
        body.push(MORE_FOLLOWS);
    }
}
