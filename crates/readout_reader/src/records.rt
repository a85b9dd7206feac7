//! The data records of a telegram.

ghost use Rattle.std.specs.Prelude.{◌≡◌, ◌≤◌, length};
ghost use Rattle.reading_model.specs.Records as records;
ghost use Rattle.readout_reader.specs.Views.{recs_view};
ghost use Rattle.readout_reader.specs.Reading.{ReadsLeft};

use crate::Rec;
use crate::broken::Broken;
use crate::record::read_record;
use arrayvec::ArrayVec;

/// The mark that a further telegram follows, as the last byte.
const MORE: u8 = 0x1F;

/// The records of these bytes, and whether the mark stands behind them.
///
/// # Errors
/// [`Broken`] at the first field that breaks its rule.
pub(crate) fn read_records(bytes: &[u8]) -> Result<(ArrayVec<Rec, 64>, bool), Broken>
    requires { length bytes.now ≤ 240 }
    ensures { ReadsLeft (λ r. (recs_view r.0.items, r.1)) result (records.records_in 0 bytes.now) }
{
    let mut records = ArrayVec::new();
    let mut rest = bytes;
    while !rest.is_empty() {
        if is_mark(rest) {
            return Ok((records, true));
        }
        let (rec, behind) = read_record(rest)?;
        records.push(rec);
        rest = behind;
    }
    Ok((records, false))
}

// The mark stands last.
fn is_mark(rest: &[u8]) -> bool
    ensures { result ≡ records.is_mark rest.now }
{
    match rest {
        [byte] => *byte == MORE,
        _ => false,
    }
}
