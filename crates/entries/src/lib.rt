// Whether an entry of a store fits: a channel end by itself, and a packet record beside its channel end.
#![tactic(auto)]

ghost use Rattle.std.specs.Prelude.{◌≡◌, ◌+◌, ◌≤◌, length};
ghost use Rattle.std.proofs.Math.Option.{some};
ghost use Rattle.wire.specs.Choice.{◌and◌, is_some};
ghost use Rattle.wire.specs.Bytes.{part};
ghost use Rattle.slots.specs.Height.{no_timeout, same_timeout};
ghost use Rattle.slots.specs.Table.{lookup};
ghost use Rattle.slots.specs.Layout.{slot_size, size_for, channel_in, store_in};
ghost use Rattle.slots.specs.Ordering.{is_received};
ghost use Rattle.slots.specs.Fit.{channel_fits, has_zero_timeouts_and_digest, fits_end, record_fits};

use slots::slot::channel_at;
use slots::{Channel, Key, Layout, Record, Timeout};
use tables::ordering::{is_received, may_have_receipt, may_have_timeout_receipt};
use tables::scan::{find_channel, first_record};
use versions::is_padded;
use wire::{DIGEST, u32_at, u64_at};

// INIT, TRYOPEN, OPEN or CLOSED, a known order, counters at least 1, a version with zeros behind it; an INIT end
// names no counterparty's channel. The channel record from `at` on, field by field; the version and the counterparty's
// channel last, where the other tests passed, since they are dearer.
pub fn channel_fits(s: &[u8], at: usize) -> bool
    requires { at + slot_size ≤ length s.now }
    ensures { result ≡ channel_fits (channel_in (part at slot_size s.now)) }
{
    let state = s[at + 2];
    let order = s[at + 3];
    if ((Channel::INIT <= state) & (state <= Channel::CLOSED))
        & ((Channel::ORDERED <= order) & (order <= Channel::ALLOW_TIMEOUT))
        & ((1 <= u64_at(s, at + 16)) & (1 <= u64_at(s, at + 24)) & (1 <= u64_at(s, at + 32)))
    {
        return is_padded(s, at + 40) & ((state != Channel::INIT) | (u32_at(s, at + 12) == 0));
    }
    false
}

// A receipt and a timeout receipt have zero timeouts and digest.
#[tactic(auto, using(slots::proofs::FieldLaws::by_fields), unfolding(slots::specs::Fit::has_zero_timeouts_and_digest))]
fn has_zero_timeouts_and_digest(r: Record) -> bool
    ensures { result ≡ has_zero_timeouts_and_digest r }
{
    r.timeout == Timeout::NONE && r.digest == [0; DIGEST]
}

// A packet record of this key, wherever it stands.
fn is_there(s: &[u8], count: usize, k: Key) -> bool
    requires { length s.now ≡ size_for count }
    ensures { result ≡ is_some (lookup k (store_in s.now).records) }
{
    first_record(s, count, 0, k).is_some()
}

fn acknowledgement_fits(s: &[u8], count: usize, r: Record, c: Channel) -> bool
    requires { length s.now ≡ size_for count }
    ensures { result ≡ (same_timeout r.timeout no_timeout and is_received (store_in s.now).records c r.sequence) }
{
    let received = is_received(c, r.sequence, |k| is_there(s, count, k));
    r.timeout == Timeout::NONE && received
}

// By kind, on the record's own channel end. A timeout receipt is no arm of its own: the match on four kinds that stand
// side by side becomes a jump by a table, which slows the check of every record.
fn fits_end(s: &[u8], count: usize, r: Record, c: Channel) -> bool
    requires { length s.now ≡ size_for count }
    ensures { result ≡ fits_end (store_in s.now) r (some c) }
{
    let kind = r.kind;
    match kind {
        Record::COMMITMENT => r.sequence < c.next.send,
        Record::RECEIPT => may_have_receipt(c) & has_zero_timeouts_and_digest(r),
        Record::ACKNOWLEDGEMENT => acknowledgement_fits(s, count, r, c),
        _ => {
            (kind == Record::TIMEOUT_RECEIPT)
                & may_have_timeout_receipt(c, r.sequence)
                & has_zero_timeouts_and_digest(r)
        }
    }
}

pub fn record_fits(s: &[u8], count: usize, r: Record) -> bool
    requires { length s.now ≡ size_for count }
    ensures { result ≡ record_fits (store_in s.now) r }
{
    let Some(j) = find_channel(s, r.channel) else {
        return false;
    };
    let c = channel_at(s, Layout::HEADER + Layout::SLOT * j);
    (1 <= r.sequence) & fits_end(s, count, r, c)
}
