// A packet at an end: whether it can have come, over an open connection to an end that it fits, and what the packet
// records hold of it.
#![tactic(auto)]

ghost use Rattle.std.specs.Prelude.{◌≡◌, not};
ghost use Rattle.std.proofs.Math.Option.{some};
ghost use Rattle.slots.specs.Table.{has_free};
ghost use Rattle.slots.specs.Layout.{store_in};
ghost use Rattle.slots.specs.Scan.{RecordsInOrder};
ghost use Rattle.rules.specs.Verdict.{has_values};
ghost use Rattle.rules.specs.Refusals.{fits_destination, fits_source, is_committed};

use datagram::{Context, Packet};
use slots::slot::record_at;
use slots::{Channel, Key, Layout, Record, Timeout};
use tables::halves::find_record;
use wire::are_zero;

// 8: the connection is not open.
pub fn lacks_connection(x: Context) -> bool
    ensures { result ≡ not x.connected }
{
    !x.connected
}

// 9, for 2: the end is the packet's destination.
#[tactic(auto, using(slots::proofs::FieldLaws::by_fields), unfolding(rules::specs::Refusals::fits_destination))]
pub fn fits_destination(c: Channel, p: Packet) -> bool
    ensures { result ≡ fits_destination c p }
{
    p.destination.port == c.own.port && p.source == c.counterparty
}

// 9, for 4, 5 and 12: the end is the packet's source.
#[tactic(auto, using(slots::proofs::FieldLaws::by_fields), unfolding(rules::specs::Refusals::fits_source))]
pub fn fits_source(c: Channel, p: Packet) -> bool
    ensures { result ≡ fits_source c p }
{
    p.source.port == c.own.port && p.destination == c.counterparty
}

// 20: a packet record is free. The free ones stand behind, so that the last one tells.
pub fn has_free(store: &[u8], count: usize) -> bool
    requires { RecordsInOrder store.now count }
    ensures { result ≡ has_free (store_in store.now).records }
{
    are_zero(
        store,
        Layout::RECORDS_FROM + Layout::SLOT * (count - 1),
        Layout::SLOT,
    )
}

#[tactic(auto, using(slots::proofs::FieldLaws::by_fields), unfolding(rules::specs::Verdict::has_values))]
fn has_values(timeout: Timeout, digest: [u8; 32], r: Record) -> bool
    ensures { result ≡ has_values timeout digest (some r) }
{
    r.timeout == timeout && r.digest == digest
}

// 13: the commitment at the packet's source is there, with its timeouts and digest.
pub fn is_committed(store: &[u8], count: usize, p: Packet) -> bool
    requires { RecordsInOrder store.now count }
    ensures { result ≡ is_committed (store_in store.now).records p }
{
    let k = Key {
        kind: Record::COMMITMENT,
        channel: p.source.channel,
        sequence: p.sequence,
    };
    let Some(i) = find_record(store, count, k) else {
        return false;
    };
    has_values(
        p.timeout,
        p.digest,
        record_at(store, Layout::RECORDS_FROM + Layout::SLOT * i),
    )
}
