//! A reading that is under way.
ghost use Rattle.std.specs.Prelude.{◌≡◌, Some};
ghost use Rattle.billing_memory.specs.Records.{record_view};

use crate::compose::last_telegram;
use billing_memory::MeterRecord;

/// A reading of which a telegram has been given.
#[derive(Debug, PartialEq, Eq, Drop)]
pub(crate) struct Reading {
    /// The record that the reading is of: the one in force when it began.
    pub(crate) frozen: MeterRecord,
    /// The number of the telegram that was given last.
    pub(crate) number: u8,
    /// The control field of the request for it.
    pub(crate) control: u8,
}

impl Reading {
    ghost use Rattle.mbus_records.specs.Readings.{AsksNext};

    /// The reading that a request with another control field asks for: the one under way with its next
    /// telegram, and where it has none, one of the record in force.
    pub(crate) fn next(under_way: Option<Reading>, control: u8, m: &MeterRecord) -> Reading
        ensures control { result.control ≡ control }
        ensures asked { AsksNext under_way (record_view m.now) result }
    {
        match under_way {
            Some(last) => last.continued(control, m),
            None => Reading::begun(control, m),
        }
    }

    fn continued(self, control: u8, m: &MeterRecord) -> Reading
        ensures control { result.control ≡ control }
        ensures asked { AsksNext (Some self) (record_view m.now) result }
    {
        if self.number < last_telegram(&self.frozen) {
            Reading {
                frozen: self.frozen,
                number: self.number + 1,
                control,
            }
        } else {
            Reading::begun(control, m)
        }
    }

    fn begun(control: u8, m: &MeterRecord) -> Reading
        ensures control { result.control ≡ control }
        ensures number { result.number ≡ 0 }
        ensures frozen { record_view result.frozen ≡ record_view m.now }
    {
        Reading {
            frozen: m.duplicate(),
            number: 0,
            control,
        }
    }
}
