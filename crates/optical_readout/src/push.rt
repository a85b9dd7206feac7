//! Parts of a message, appended to what is written of it.
ghost use Rattle.std.specs.Prelude.{◌≡◌, ◌+◌, ◌<◌, ◌≤◌, ◌++◌, length, codes};
ghost use Rattle.parts_model.specs.Ranges.{max_serial};
ghost use Rattle.arrayvec.specs.ArrayVec.{array_vec_len};
ghost use Rattle.display_model.specs.Display.{eight_digits};
ghost use Rattle.optical_model.specs.Messages.{day_line, energy_value, marked, volume_value};
ghost use Rattle.energy_register.specs.Register.{register_view};
ghost use Rattle.meter_config.specs.Views.{config_view};

use crate::head::REPLY_ROOM;
use arrayvec::ArrayVec;
use byte_lists::append;
use energy_register::{Register, digits_text};
use meter_config::Config;

/// Appends the line of the serial number.
pub(crate) fn push_serial(message: &mut ArrayVec<u8, REPLY_ROOM>, serial: u32)
    requires room { array_vec_len message.old + 16 ≤ 2048 }
    requires eight_digits { serial ≤ max_serial }
    ensures items { message.new.items ≡ message.old.items ++ (codes "9.21(" ++ eight_digits serial ++ codes ")\r\n") }
    ensures len { array_vec_len message.new ≡ array_vec_len message.old + 16 }
{
    let digits = digits_text(serial, 0);
    append(message, b"9.21(");
    append(message, digits.as_str().as_bytes());
    append(message, b")\r\n");
}

/// Appends the line of a day.
pub(crate) fn push_day(message: &mut ArrayVec<u8, REPLY_ROOM>, day: &str)
    requires { array_vec_len message.old + length day.now + 8 ≤ 2048 }
    ensures items { message.new.items ≡ message.old.items ++ day_line day.now }
    ensures len { array_vec_len message.new ≡ array_vec_len message.old + length day.now + 8 }
{
    append(message, b"9.36(");
    append(message, day.as_bytes());
    append(message, b")\r\n");
}

/// Appends the energy of a register in brackets, and the end of the line.
pub(crate) fn push_energy(message: &mut ArrayVec<u8, REPLY_ROOM>, c: &Config, register: &Register)
    requires { array_vec_len message.old + 17 ≤ 2048 }
    ensures items { message.new.items ≡ message.old.items ++ energy_value (config_view c.now) (register_view register.now) }
    ensures len { array_vec_len message.new ≤ array_vec_len message.old + 17 }
{
    let text = digits_text(register.energy_digits(c.energy_decimals), c.energy_decimals);
    append(message, b"(");
    append(message, text.as_str().as_bytes());
    append(message, b"*kWh)\r\n");
}

/// Appends the volume of a register in brackets, and the end of the line.
pub(crate) fn push_volume(message: &mut ArrayVec<u8, REPLY_ROOM>, c: &Config, register: &Register)
    requires { array_vec_len message.old + 16 ≤ 2048 }
    ensures items { message.new.items ≡ message.old.items ++ volume_value (config_view c.now) (register_view register.now) }
    ensures len { array_vec_len message.new ≤ array_vec_len message.old + 16 }
{
    let text = digits_text(
        register.volume_digits(c.per_pulse, c.volume_decimals),
        c.volume_decimals,
    );
    append(message, b"(");
    append(message, text.as_str().as_bytes());
    append(message, b"*m3)\r\n");
}

/// Appends the mark of an entry, below 100, and its day.
pub(crate) fn push_mark(message: &mut ArrayVec<u8, REPLY_ROOM>, mark: u8, day: &str)
    requires room { array_vec_len message.old + length day.now + 5 ≤ 2048 }
    requires two_digits { mark < 100 }
    ensures items { message.new.items ≡ message.old.items ++ marked mark day.now }
    ensures len { array_vec_len message.new ≡ array_vec_len message.old + length day.now + 5 }
{
    append(message, b"*");
    message.push(b'0' + mark / 10);
    message.push(b'0' + mark % 10);
    append(message, b"(");
    append(message, day.as_bytes());
    append(message, b")");
}
