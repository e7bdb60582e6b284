// All of a store before its packet records: whether header, next channel number and channel ends fit.
#![tactic(auto)]

pub mod exact; // bytes laid out exactly as a store's

ghost use Rattle.std.specs.Prelude.{◌≡◌, ◌≤◌, ◌<◌, length};
ghost use Rattle.slots.specs.Limits.{channel_limit, record_limit};
ghost use Rattle.slots.specs.Table.{same_number};
ghost use Rattle.slots.specs.Layout.{header_size, records_from, channel_bytes, channel_in};
ghost use Rattle.slots.specs.Scan.{slot_at, slots_from};
ghost use Rattle.front.specs.EverySlot.{every_slot, fits_below, is_lone, slot_fits, front_fits};

use entries::channel_fits;
use exact::{is_channel_exact, is_header_exact};
use slots::Layout;
use tables::scan::first_channel;
use wire::{are_zero, u32_at, u64_at};

// Slot i of the channel records, with the slots before it. Its number is searched there and not behind it: the free
// slots mostly stand behind the ends.
fn channel_slot_fits(s: &[u8], next: u64, i: usize) -> bool
    requires { (records_from ≤ length s.now) × (i < channel_limit) }
    ensures { result ≡
        slot_fits channel_bytes channel_in (fits_below next) (is_lone same_number) (slot_at header_size s.now i)
        (slots_from header_size i s.now 0) }
{
    let at = Layout::HEADER + Layout::SLOT * i;
    if are_zero(s, at, Layout::SLOT) {
        return true;
    }
    let number = u32_at(s, at + 4);
    if !channel_fits(s, at) {
        return false;
    }
    if is_channel_exact(s, at) & ((number as u64) < next) {
        return first_channel(s, i, number).is_none();
    }
    false
}

fn channels_fit(s: &[u8], next: u64) -> bool
    requires { records_from ≤ length s.now }
    ensures { result ≡
        every_slot (slot_fits channel_bytes channel_in (fits_below next) (is_lone same_number))
        (slots_from header_size channel_limit s.now 0) }
{
    for i in 0..Layout::CHANNELS {
        if !channel_slot_fits(s, next, i) {
            return false;
        }
    }
    true
}

pub fn front_fits(s: &[u8], count: usize) -> bool
    requires { (count ≤ record_limit) × (records_from ≤ length s.now) }
    ensures { result ≡ front_fits s.now count }
{
    let next = u64_at(s, 28);
    if is_header_exact(s, count) & (1 <= next) {
        return channels_fit(s, next);
    }
    false
}
