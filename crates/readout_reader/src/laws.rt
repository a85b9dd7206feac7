//! What a meter writes is read, and where input that ends early is broken.

ghost use Rattle.std.specs.Prelude.{◌≡◌, ◌≤◌, ◌↔◌, ℕ, true, List, length, Ok, Some};
ghost use Rattle.metering_model.specs.Limits.{max_months};
ghost use Rattle.config_model.specs.Configuration.{Configuration, IsConfiguration};
ghost use Rattle.metering_model.specs.Records.{MeterRecord};
ghost use Rattle.frame_model.specs.Frames.{Frame, frame_bytes};
ghost use Rattle.telegram_model.specs.Telegram.{telegram};
ghost use Rattle.optical_model.specs.Messages.{IsDataMessage};
ghost use Rattle.reading_model.specs.Telegrams.{telegram_in};
ghost use Rattle.reading_model.specs.Messages.{CanBeMended, day_form, is_mended, message_in, number_form, same_form, serial_form};
ghost use Rattle.reading_model.specs.Written.{HasDays, message_said, telegram_said};

/// A law: each telegram of a record, of any configuration, is read as the displays, temperatures, days and entries
/// that it was written from.
pub fn telegrams_are_read()
    ensures { (c : Configuration) (m : MeterRecord) (k access : ℕ) (f : Frame) → IsConfiguration c → HasDays m → telegram c m k access ≡ Some f → telegram_in (frame_bytes f) ≡ Ok (telegram_said c m k access) }
{}

/// A law: the data message of a record with at most 24 month entries, of any configuration, is read as the displays,
/// days and entries that it was written from.
pub fn data_messages_are_read()
    ensures { (c : Configuration) (m : MeterRecord) (text : List ℕ) → IsConfiguration c → length m.months ≤ max_months → IsDataMessage c m text → message_in text ≡ Ok (message_said c m) }
{}

/// A law: the endings of a serial number, a number, a day and the second day of a mark tell whether it can be mended
/// where it is cut short: one of them makes it of its form exactly where some bytes follow with which it is of its form.
pub fn an_end_can_be_mended()
    ensures serial { (text : List ℕ) → is_mended serial_form text ≡ true ↔ CanBeMended serial_form text }
    ensures number { (text : List ℕ) → is_mended number_form text ≡ true ↔ CanBeMended number_form text }
    ensures day { (text : List ℕ) → is_mended day_form text ≡ true ↔ CanBeMended day_form text }
    ensures second_day { (first text : List ℕ) → is_mended (same_form first) text ≡ true ↔ CanBeMended (same_form first) text }
{}
