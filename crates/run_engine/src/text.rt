//! The output lines.
ghost use Rattle.std.specs.Prelude.{◌≡◌, ◌≤◌, ◌+◌, ◌++◌, ◌*◌, codes, length, IfSome, option_map};
ghost use Rattle.arrayvec.specs.ArrayVec.{array_vec_len};
ghost use Rattle.hex.specs.Hex.{encode_lower};
ghost use Rattle.metering_model.specs.Settings.{Settings};
ghost use Rattle.answer_model.specs.Texts.{ok_text, power_text, readout_text, reply_shown, shown};
ghost use Rattle.billing_memory.specs.Records.{record_view};
ghost use Rattle.line_text.specs.Text.{text_of};

use arrayvec::ArrayVec;
use billing_memory::MeterRecord;
use byte_lists::append;
use itoa::Buffer;
use line_text::LineText;
use optical_readout::REPLY_ROOM;

/// Makes the line `ok K VOL E B` for a record, where a pulse stands for `per_pulse` litres.
pub fn ok_line(line: &mut LineText, meter_record: &MeterRecord, per_pulse: u16)
    ensures { (c : Settings) → c.litres_per_pulse ≡ per_pulse → text_of line.new ≡ ok_text c (record_view meter_record.now) }
{
    record_line(line, b"ok ", meter_record, per_pulse);
}

/// Makes the line `power K VOL E B` for a record that was recovered, where a pulse stands for `per_pulse` litres.
pub fn power_line(line: &mut LineText, meter_record: &MeterRecord, per_pulse: u16)
    ensures { (c : Settings) → c.litres_per_pulse ≡ per_pulse → text_of line.new ≡ power_text c (record_view meter_record.now) }
{
    record_line(line, b"power ", meter_record, per_pulse);
}

// Makes the line of a record behind a name, which ends with its space: from its end to its begin. Taken into its callers,
// a name of few bytes is no call.
#[inline(always)]
#[tactic(auto, using(std::proofs::lemmas::List::append_assoc))]
fn record_line(line: &mut LineText, name: &[u8], meter_record: &MeterRecord, per_pulse: u16)
    requires { length name.now ≤ 10 }
    ensures { (c : Settings) → c.litres_per_pulse ≡ per_pulse → text_of line.new ≡ name.now ++ shown c (record_view meter_record.now) ++ codes "\n" }
{
    let register = &meter_record.register;
    line.clear();
    line.put(b"\n");
    line.put_wide(register.bound_mj);
    line.put(b" ");
    line.put_signed(register.energy_mj);
    line.put(b" ");
    line.put_wide(register.litres(per_pulse));
    line.put(b" ");
    line.put_number(meter_record.seq);
    line.put(name);
}

/// The room of an output line that shows a reply: two digits for each byte, the name and the number.
pub const READOUT_ROOM: usize = 4160;

/// The line `NAME K REPLY` for a readout, where the meter has this record: the reply in hexadecimal, or `-`
/// where there is none.
#[tactic(auto, using(std::proofs::lemmas::List::append_assoc))]
pub fn readout_line(
    name: &str,
    meter_record: &MeterRecord,
    reply: Option<&[u8]>,
) -> ArrayVec<u8, READOUT_ROOM>
    requires name { length name.now ≤ 10 }
    requires short { IfSome reply (λ bytes. length bytes.now ≤ 2048) }
    ensures { result.items ≡ readout_text name.now (record_view meter_record.now) (option_map (λ bytes. bytes.now) reply.entry) }
{
    let mut line = ArrayVec::new();
    append(&mut line, name.as_bytes());
    append(&mut line, b" ");
    append(&mut line, Buffer::new().format(meter_record.seq).as_bytes());
    append(&mut line, b" ");
    push_reply(&mut line, reply);
    append(&mut line, b"\n");
    line
}

// Adds the bytes of a reply in hexadecimal, or `-` where there is none.
fn push_reply(line: &mut ArrayVec<u8, READOUT_ROOM>, reply: Option<&[u8]>)
    requires short { IfSome reply (λ bytes. length bytes.now ≤ 2048) }
    requires room { array_vec_len line.old ≤ 60 }
    ensures shown { line.new.items ≡ line.old.items ++ reply_shown (option_map (λ bytes. bytes.now) reply.entry) }
    ensures short { array_vec_len line.new ≤ array_vec_len line.old + 4096 }
{
    match reply {
        Some(bytes) => push_hex(line, bytes),
        None => append(line, b"-"),
    }
}

// Adds bytes in hexadecimal.
fn push_hex(line: &mut ArrayVec<u8, READOUT_ROOM>, bytes: &[u8])
    requires few { length bytes.now ≤ 2048 }
    requires room { array_vec_len line.old ≤ 60 }
    ensures digits { line.new.items ≡ line.old.items ++ encode_lower bytes.now }
    ensures two_each { array_vec_len line.new ≡ array_vec_len line.old + 2 * length bytes.now }
{
    let mut room = [0; 2 * REPLY_ROOM];
    let digits = &mut room[..2 * bytes.len()];
    hex::encode_to_slice(bytes, digits).unwrap();
    append(line, digits);
}
