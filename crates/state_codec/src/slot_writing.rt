//! A slot, written.

ghost use Rattle.std.specs.Prelude.{◌≡◌, ℕ, List, ◌+◌, ◌*◌, ◌≤◌, ◌<◌, ◌^◌, ◌++◌, length, take, drop, map, replicate, Ok};
ghost use Rattle.std.specs.List.{flat_map};
ghost use Rattle.billing_memory.specs.Entries.{entries_view, set_day_view};
ghost use Rattle.billing_memory.specs.Records.{record_view};
ghost use Rattle.byte_model.specs.Bytes.{AreBytes};
ghost use Rattle.memory_model.specs.Slot.{entry_size, record_in, slot_size};
ghost use Rattle.state_codec.specs.Slot.{entry_bytes, head_bytes, sum_bytes, set_day_bytes, zeros, flow_of, return_of};

use crate::SLOT_SIZE;
use crate::entry::{ENTRY_SIZE, write_entry};
use crate::fields::fill_front;
use billing_memory::{Entry, MeterRecord};

/// The bytes of a slot with this record.
///
/// [`decode_record`](crate::decode_record) reads the same record again, from these bytes and from no others.
pub fn encode_record(m: &MeterRecord) -> [u8; SLOT_SIZE]
    ensures read_again { record_in result ≡ Ok (record_view m.now) }
    ensures one_spelling { (bytes : List ℕ) → AreBytes bytes → length bytes ≡ slot_size
        → record_in bytes ≡ Ok (record_view m.now) → result ≡ bytes }
{
    let mut out = blank_slot();
    fill_front(&mut out, &write_head(m), &write_sums(m), &write_set_day(m));
    write_entries(&mut out, 120, m.months.as_slice());
    out
}

#[tactic(auto, unfolding(crate::specs::Slot::zeros))]
fn blank_slot() -> [u8; SLOT_SIZE]
    ensures { result ≡ zeros slot_size }
{
    [0; SLOT_SIZE]
}

#[tactic(auto, unfolding(crate::specs::Slot::head_bytes))]
fn write_head(m: &MeterRecord) -> [u8; 16]
    ensures { result ≡ head_bytes (record_view m.now) }
{
    let s = m.seq.to_le_bytes();
    let d = m.day.number.to_le_bytes();
    let sampled = u8::from(m.samples.is_some());
    let kept = u8::from(m.set_day.is_some());
    let count = m.months.len() as u8;
    [
        s[0], s[1], s[2], s[3], s[4], s[5], s[6], s[7], d[0], d[1], sampled, count, kept, 0, 0, 0,
    ]
}

fn flow_sample(m: &MeterRecord) -> u32
    ensures { result ≡ flow_of m.now.samples }
{
    match m.samples {
        Some((flow, _)) => flow,
        None => 0,
    }
}

fn return_sample(m: &MeterRecord) -> u32
    ensures { result ≡ return_of m.now.samples }
{
    match m.samples {
        Some((_, ret)) => ret,
        None => 0,
    }
}

fn write_sums(m: &MeterRecord) -> [u8; 56]
    ensures bytes { result ≡ sum_bytes (record_view m.now) }
    ensures flow { flow_of m.now.samples < 2 ^ 32 }
    ensures ret { return_of m.now.samples < 2 ^ 32 }
{
    let s = flow_sample(m).to_le_bytes();
    let r = return_sample(m).to_le_bytes();
    let f = m.faulty.to_le_bytes();
    let p = m.register.pulses.to_le_bytes();
    let e = m.register.energy_mj.to_le_bytes();
    let b = m.register.bound_mj.to_le_bytes();
    [
        s[0], s[1], s[2], s[3], r[0], r[1], r[2], r[3], f[0], f[1], f[2], f[3], f[4], f[5], f[6],
        f[7], p[0], p[1], p[2], p[3], p[4], p[5], p[6], p[7], e[0], e[1], e[2], e[3], e[4], e[5],
        e[6], e[7], e[8], e[9], e[10], e[11], e[12], e[13], e[14], e[15], b[0], b[1], b[2], b[3],
        b[4], b[5], b[6], b[7], b[8], b[9], b[10], b[11], b[12], b[13], b[14], b[15],
    ]
}

#[tactic(auto, unfolding(crate::specs::Slot::set_day_bytes, crate::specs::Slot::zeros))]
fn write_set_day(m: &MeterRecord) -> [u8; ENTRY_SIZE]
    ensures { result ≡ set_day_bytes (set_day_view m.now.set_day) }
{
    match &m.set_day {
        Some(entry) => write_entry(entry),
        None => [0; ENTRY_SIZE],
    }
}

fn put_at(out: &mut [u8], at: usize, part: &[u8])
    requires { at + length part.now ≤ length out.old }
    ensures { out.new ≡ take at out.old ++ (part.now ++ drop (at + length part.now) out.old) }
{
    out[at..at + part.len()].copy_from_slice(part);
}

// Writes entries one after another.
fn write_entries(out: &mut [u8], at: usize, entries: &[Entry])
    requires { at + entry_size * length entries.now ≤ length out.old }
    ensures { out.new ≡ take at out.old ++ (flat_map entry_bytes (entries_view entries.now)
        ++ drop (at + entry_size * length entries.now) out.old) }
{
    for (k, entry) in entries.iter().enumerate() {
        put_at(out, at + ENTRY_SIZE * k, &write_entry(entry));
    }
}
