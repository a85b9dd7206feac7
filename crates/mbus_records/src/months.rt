//! The month entries of a telegram.
ghost use Rattle.std.specs.Prelude.{◌≡◌, ◌+◌, ◌-◌, ◌*◌, ◌≤◌, ◌<◌, ◌++◌, length, reverse, take, drop};
ghost use Rattle.metering_model.specs.Limits.{max_months};
ghost use Rattle.arrayvec.specs.ArrayVec.{array_vec_len};
ghost use Rattle.telegram_model.specs.Telegram.{records_from};
ghost use Rattle.billing_memory.specs.Entries.{entries_view};
ghost use Rattle.meter_config.specs.Views.{config_view};

use crate::push::{ROOM, push_entry};
use arrayvec::ArrayVec;
use billing_memory::Entry;
use meter_config::Config;

/// How many month entries a telegram has at most.
const ENTRIES: usize = 8;

/// Appends the entries of telegram `k`, from 1 on: eight at most, behind the `8 * (k - 1)` newest.
pub(crate) fn push_months(body: &mut ArrayVec<u8, ROOM>, c: &Config, months: &[Entry], k: u8)
    requires room { array_vec_len body.old + 152 ≤ 252 }
    requires few { length months.now ≤ max_months }
    requires first { 1 ≤ k }
    requires there { 8 * (k - 1) ≤ length months.now }
    ensures items { body.new.items ≡ body.old.items
        ++ records_from (config_view c.now) (8 * (k - 1) + 2) (take 8 (drop (8 * (k - 1)) (reverse (entries_view months.now)))) }
    ensures len { array_vec_len body.new ≤ array_vec_len body.old + 152 }
{
    let newer = 8 * (k - 1);
    let entries = entries_behind(months, usize::from(newer));
    push_entries(body, c, entries, newer + 2);
}

// Of entries, oldest first, those behind so many newer ones, eight at most.
fn entries_behind(months: &[Entry], newer: usize) -> &[Entry]
    requires { newer ≤ length months.now }
    ensures entries { reverse result.now ≡ take 8 (drop newer (reverse months.now)) }
    ensures few { length result.now ≤ 8 }
{
    let end = months.len() - newer;
    &months[end.saturating_sub(ENTRIES)..end]
}

// Appends entries, the last one first, with storage numbers from `first` on.
fn push_entries(body: &mut ArrayVec<u8, ROOM>, c: &Config, entries: &[Entry], first: u8)
    requires room { array_vec_len body.old + 152 ≤ 252 }
    requires few { length entries.now ≤ 8 }
    requires first { first ≤ 200 }
    ensures items { body.new.items ≡ body.old.items
        ++ records_from (config_view c.now) first (reverse (entries_view entries.now)) }
    ensures len { array_vec_len body.new ≤ array_vec_len body.old + 152 }
{
    let mut storage = first;
    for entry in entries.iter().rev() {
        push_entry(body, c, storage, entry);
        storage += 1;
    }
}
