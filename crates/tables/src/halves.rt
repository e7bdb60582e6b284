// A packet record by its key, by halves: where the records are in order, those before the key are the first ones.
ghost use Rattle.std.specs.Prelude.{◌≡◌, true, ◌≤◌, length};
ghost use Rattle.wire.specs.Choice.{is_some};
ghost use Rattle.slots.specs.Table.{in_order, has_key, lookup, precedes};
ghost use Rattle.slots.specs.Layout.{records_from, size_for, record_in, store_in};
ghost use Rattle.slots.specs.Scan.{first_that, table_from, place_of, RecordsInOrder};

use super::key::{has_key, stands_before};
use slots::{Key, Layout};

// How many of the first `count` packet records stand before a key. These are in order; what stands behind them is any.
pub fn place_of(s: &[u8], count: usize, k: Key) -> usize
    requires { (size_for count ≤ length s.now) ×
        (in_order precedes (table_from record_in records_from count s.now 0) ≡ true) }
    ensures { result ≡ place_of k (table_from record_in records_from count s.now 0) }
{
    let mut low: usize = 0;
    let mut high = count;
    while low < high {
        let middle = low + (high - low) / 2;
        if stands_before(s, Layout::RECORDS_FROM + Layout::SLOT * middle, k) {
            low = middle + 1;
        } else {
            high = middle;
        }
    }
    low
}

pub fn find_record(s: &[u8], count: usize, k: Key) -> Option<usize>
    requires { RecordsInOrder s.now count }
    ensures { result ≡ first_that (has_key k) (store_in s.now).records }
{
    let i = place_of(s, count, k);
    if i < count {
        if has_key(s, Layout::RECORDS_FROM + Layout::SLOT * i, k) {
            return Some(i);
        }
    }
    None
}

pub fn has_record(s: &[u8], count: usize, k: Key) -> bool
    requires { RecordsInOrder s.now count }
    ensures { result ≡ is_some (lookup k (store_in s.now).records) }
{
    find_record(s, count, k).is_some()
}
