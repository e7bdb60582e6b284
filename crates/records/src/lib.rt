// What acceptance does to the packet records. Which edit it is, is decided by value; one function carries it out.
#![tactic(auto)]

ghost use Rattle.std.specs.Prelude.{◌≡◌, true, ◌≤◌};
ghost use Rattle.wire.specs.Bytes.{no_digest};
ghost use Rattle.slots.specs.Table.{commitment_key, in_order, key_of, precedes};
ghost use Rattle.slots.specs.Layout.{bytes_of, store_in};
ghost use Rattle.slots.specs.Scan.{used_slots, RecordsInOrder};
ghost use Rattle.slots.specs.Effect.{Exact};
ghost use Rattle.slots.specs.Fit.{is_fit};
ghost use Rattle.rules.specs.Ordering.{writes, frees, plain_record, received_edit};
ghost use Rattle.records.specs.Edited.{with_edit, edit_by, slot_for, slot_of, spare_slot};

use changes::{insert_record, remove_record};
use ordering::{lapses, raises_counter};
use slots::{Channel, Key, Layout, Record, Timeout};
use tables::halves::{find_record, place_of};
use wire::DIGEST;

// All packet records stay, this one is written, or the one of this key becomes free.
#[derive(Clone, Copy)]
pub enum RecordEdit {
    Keeps,
    Writes(Record),
    Frees(Key),
}

// A record with no timeouts.
#[tactic(auto, unfolding(rules::specs::Ordering::plain_record))]
pub fn plain_record(kind: u16, channel: u32, sequence: u64, digest: [u8; DIGEST]) -> Record
    ensures { result ≡ plain_record kind channel sequence digest }
{
    Record {
        kind,
        channel,
        sequence,
        timeout: Timeout { height: 0, time: 0 },
        digest,
    }
}

// A record with no timeouts and no digest is written.
fn written(kind: u16, c: Channel, sequence: u64) -> RecordEdit
    ensures { edit_by result ≡ writes (plain_record kind c.own.channel sequence no_digest) }
{
    RecordEdit::Writes(plain_record(kind, c.own.channel, sequence, [0; DIGEST]))
}

// A timeout receipt tells that a packet lapsed. A receipt is needed only where no counter tells what was received.
#[tactic(auto, unfolding(rules::specs::Ordering::received_edit))]
pub fn received_edit(c: Channel, late: bool, sequence: u64) -> RecordEdit
    ensures { edit_by result ≡ received_edit c late sequence }
{
    if lapses(c, late) {
        return written(Record::TIMEOUT_RECEIPT, c, sequence);
    }
    if raises_counter(c) {
        return RecordEdit::Keeps;
    }
    written(Record::RECEIPT, c, sequence)
}

// The commitment of this sequence becomes free.
pub fn freed_commitment(c: Channel, sequence: u64) -> RecordEdit
    ensures { edit_by result ≡ frees (commitment_key c.own.channel sequence) }
{
    RecordEdit::Frees(Key {
        kind: Record::COMMITMENT,
        channel: c.own.channel,
        sequence,
    })
}

// What a record is found by.
fn key_of(r: Record) -> Key
    ensures { result ≡ key_of r }
{
    Key {
        kind: r.kind,
        channel: r.channel,
        sequence: r.sequence,
    }
}

// The slot for a record: none where the table is full and the record would stand behind all.
fn slot_for(store: &[u8], count: usize, k: Key) -> Option<usize>
    requires { RecordsInOrder store.now count }
    ensures { result ≡ slot_for k (store_in store.now).records }
{
    let i = place_of(store, count, k);
    if i < count { Some(i) } else { None }
}

// The slot that an edit is on: the place of the record in order, or that of the record that is there.
pub fn slot_of(store: &[u8], e: RecordEdit) -> Option<usize>
    requires { is_fit store.now ≡ true }
    ensures { result ≡ slot_of (edit_by e) (store_in store.now).records }
{
    let count = (store.len() - Layout::RECORDS_FROM) / Layout::SLOT;
    match e {
        RecordEdit::Keeps => None,
        RecordEdit::Writes(record) => slot_for(store, count, key_of(record)),
        RecordEdit::Frees(key) => find_record(store, count, key),
    }
}

// Where the slots end that move up for a new record: the first free one, or the last one of a full table.
fn spare_slot(count: usize, used: usize) -> usize
    requires { 1 ≤ count }
    ensures { result ≡ spare_slot count used }
{
    if used < count {
        return used;
    }
    count - 1
}

// Only slots that are in use move.
pub fn edit_records(store: &mut [u8], at: Option<usize>, used: usize, e: RecordEdit)
    requires { Exact store.old × (in_order precedes (store_in store.old).records ≡ true) ×
        (used ≡ used_slots (store_in store.old).records) × (at ≡ slot_of (edit_by e) (store_in store.old).records) }
    ensures { store.new ≡ bytes_of (with_edit (store_in store.old) (edit_by e)) }
{
    let Some(i) = at else {
        return;
    };
    match e {
        RecordEdit::Keeps => {}
        RecordEdit::Writes(record) => {
            let spare = spare_slot((store.len() - Layout::RECORDS_FROM) / Layout::SLOT, used);
            insert_record(store, i, spare - i, record)
        }
        RecordEdit::Frees(_) => remove_record(store, i, used - 1 - i),
    }
}
