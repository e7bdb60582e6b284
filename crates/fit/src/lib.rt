// Whether a store is fit: laid out exactly, each entry of its tables fits, and the packet records are in order.
#![tactic(auto)]

ghost use Rattle.std.specs.Prelude.{Some, ◌≡◌, ◌+◌, ◌≤◌, ◌<◌, length};
ghost use Rattle.slots.specs.Table.{is_numbered};
ghost use Rattle.slots.specs.Layout.{size_for, store_in};
ghost use Rattle.slots.specs.Fit.{is_fit};
ghost use Rattle.slots.specs.Scan.{first_that};
ghost use Rattle.runs.specs.Run.{key_at};
ghost use Rattle.fit.specs.Pass.{records_fit, is_ahead, starts_run, used_if};

use front::front_fits;
use runs::{own_run_end, run_fits};
use slots::Layout;
use slots::size::size_fits;
use slots::slot::channel_at;
use tables::scan::find_channel;
use wire::{are_zero, u16_at, u32_at};

// By channel, then kind.
fn is_ahead(s: &[u8], first: usize, second: usize) -> bool
    requires { (size_for (first + 1) ≤ length s.now) × (size_for (second + 1) ≤ length s.now) }
    ensures { result ≡ is_ahead (key_at s.now first) (key_at s.now second) }
{
    let before = Layout::RECORDS_FROM + Layout::SLOT * first;
    let at = Layout::RECORDS_FROM + Layout::SLOT * second;
    let number = u32_at(s, before + 4);
    let next = u32_at(s, at + 4);
    if number != next {
        return number < next;
    }
    u16_at(s, before) < u16_at(s, at)
}

// The first record of a run at slot i, behind the run from p on, if any.
fn starts_run(s: &[u8], p: usize, i: usize) -> bool
    requires { (size_for (i + 1) ≤ length s.now) × (p ≤ i) }
    ensures { result ≡ starts_run s.now p i }
{
    let at = Layout::RECORDS_FROM + Layout::SLOT * i;
    (u16_at(s, at + 2) == 0) & ((p == i) | is_ahead(s, p, i))
}

// The channel end of slot i's record: that of the run before it, from p on, of index j, where the channel is the same.
fn end_index(s: &[u8], p: usize, i: usize, j: usize) -> Option<usize>
    requires { ((size_for (i + 1) ≤ length s.now) × (p ≤ i)) ×
        (p < i → first_that (is_numbered (key_at s.now p).channel) (store_in s.now).channels ≡ Some j) }
    ensures { result ≡ first_that (is_numbered (key_at s.now i).channel) (store_in s.now).channels }
{
    let number = u32_at(s, Layout::RECORDS_FROM + Layout::SLOT * i + 4);
    if p < i {
        if u32_at(s, Layout::RECORDS_FROM + Layout::SLOT * p + 4) == number {
            return Some(j);
        }
    }
    find_channel(s, number)
}

// How many packet records are in use, where each fits and all are in order. One pass, run by run: a run's channel end
// is looked up where the channel changes, and behind the last run all is zero.
fn records_used(s: &[u8], count: usize) -> Option<usize>
    requires { length s.now ≡ size_for count }
    ensures { result ≡ used_if (records_fit s.now count) s.now }
{
    let mut i: usize = 0;
    let mut p: usize = 0;
    let mut j: usize = 0;
    while i < count {
        let at = Layout::RECORDS_FROM + Layout::SLOT * i;
        if are_zero(s, at, Layout::SLOT) {
            if are_zero(s, at, Layout::SLOT * (count - i)) {
                return Some(i);
            }
            return None;
        }
        if !starts_run(s, p, i) {
            return None;
        }
        let Some(end) = end_index(s, p, i, j) else {
            return None;
        };
        let e = own_run_end(s, count, i);
        if e == i {
            return None;
        }
        let c = channel_at(s, Layout::HEADER + Layout::SLOT * end);
        if !run_fits(s, p, i, e, c) {
            return None;
        }
        j = end;
        p = i;
        i = e;
    }
    Some(i)
}

// Whether a store is fit, by the number of its packet records in use.
pub fn used_if_fit(s: &[u8]) -> Option<usize>
    ensures { result ≡ used_if (is_fit s.now) s.now }
{
    let size = s.len();
    if !size_fits(size) {
        return None;
    }
    let count = (size - Layout::RECORDS_FROM) / Layout::SLOT;
    if !front_fits(s, count) {
        return None;
    }
    records_used(s, count)
}
