// Scans of the two tables: the first slot that passes a test, by its index.
ghost use Rattle.std.specs.Prelude.{◌≡◌, ◌+◌, ◌*◌, ◌≤◌, length};
ghost use Rattle.wire.specs.Bytes.{part};
ghost use Rattle.slots.specs.Limits.{channel_limit};
ghost use Rattle.slots.specs.Table.{is_numbered, has_key};
ghost use Rattle.slots.specs.Layout.{header_size, slot_size, records_from, size_for};
ghost use Rattle.slots.specs.Layout.{channel_in, record_in, slot_in, store_in};
ghost use Rattle.slots.specs.Scan.{index_where, holds, first_free, first_that, table_from};

use super::key::has_key;
use slots::{Key, Layout};
use wire::{are_zero, u32_at};

// A free slot has no number, though its bytes read as 0. Numbers differ, so that few slots are tested for it.
fn is_numbered(s: &[u8], at: usize, number: u32) -> bool
    requires { at + slot_size ≤ length s.now }
    ensures { result ≡ holds (is_numbered number) (slot_in channel_in (part at slot_size s.now)) }
{
    if u32_at(s, at + 4) != number {
        return false;
    }
    !are_zero(s, at, Layout::SLOT)
}

// The first channel end of this number among the first `upto` slots.
pub fn first_channel(s: &[u8], upto: usize, number: u32) -> Option<usize>
    requires { (records_from ≤ length s.now) × (upto ≤ channel_limit) }
    ensures { result ≡ first_that (is_numbered number) (table_from channel_in header_size upto s.now 0) }
{
    (0..upto).find(|&i| is_numbered(s, Layout::HEADER + Layout::SLOT * i, number))
}

// The first packet record of this key among the slots from `from` on, whatever their order.
pub fn first_record(s: &[u8], count: usize, from: usize, k: Key) -> Option<usize>
    requires { size_for count ≤ length s.now }
    ensures { result ≡ index_where (holds (has_key k)) from (table_from record_in records_from count s.now from) }
{
    (from..count).find(|&i| has_key(s, Layout::RECORDS_FROM + Layout::SLOT * i, k))
}

pub fn find_channel(s: &[u8], number: u32) -> Option<usize>
    requires { records_from ≤ length s.now }
    ensures { result ≡ first_that (is_numbered number) (store_in s.now).channels }
{
    first_channel(s, Layout::CHANNELS, number)
}

// The free channel record of lowest index.
pub fn find_free_channel(s: &[u8]) -> Option<usize>
    requires { records_from ≤ length s.now }
    ensures { result ≡ first_free (store_in s.now).channels }
{
    (0..Layout::CHANNELS).find(|&i| are_zero(s, Layout::HEADER + Layout::SLOT * i, Layout::SLOT))
}
