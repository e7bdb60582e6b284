// The answer to each kind of datagram about packets, by the lines of the table that are for it, in their order: `Ok`
// where none applies. Each function takes the parts of a datagram that its lines look at, and promises the answer for
// all that have them.
#![tactic(auto)]

ghost use Rattle.std.specs.Prelude.{◌≡◌, not};
ghost use Rattle.std.proofs.Math.Option.{some};
ghost use Rattle.refusal.specs.Number.{answer_of};
ghost use Rattle.wire.specs.Choice.{◌and◌};
ghost use Rattle.wire.specs.Bytes.{are_zero};
ghost use Rattle.slots.specs.Table.{has_free};
ghost use Rattle.slots.specs.Layout.{Store, store_in};
ghost use Rattle.slots.specs.Scan.{RecordsInOrder};
ghost use Rattle.datagram.specs.Kind.{send, receive, write, acknowledge, time_out};
ghost use Rattle.datagram.specs.Datagram.{Datagram};
ghost use Rattle.rules.specs.Ordering.{needs_record};
ghost use Rattle.rules.specs.Refusals.{comes_late};
ghost use Rattle.verdicts.specs.Lines.{number_behind};

use datagram::{Context, Packet, Verdict};
use heights::{is_late_at_receiver, is_late_at_sender, is_no_timeout, is_proved_late};
use ordering::{
    acknowledges_in_order, is_acknowledge_at_top, is_receipt_there, is_receive_at_top, is_received,
    is_send_at_top, is_timeout_at_top, needs_record, receives_in_order, refuses_late,
    times_out_in_order,
};
use packets::{fits_destination, fits_source, has_free, is_committed, lacks_connection};
use refusal::Refusal;
use slots::{Channel, Key, Record, Timeout};
use tables::halves::has_record;
use verdicts::{
    absence_difference, acknowledgement_difference, claims_taken, commitment_difference,
};
use wire::DIGEST;

// Send (1): lines 10, 11, 19 and 20.
#[tactic(auto, using(verdicts::proofs::RowLines::send_lines))]
pub fn send_row(
    store: &[u8],
    count: usize,
    x: Context,
    t: Timeout,
    c: Channel,
) -> Result<(), Refusal>
    requires { RecordsInOrder store.now count }
    ensures { (d : Datagram) → d.context ≡ x → d.timeout ≡ t →
        answer_of result ≡ number_behind 7 (some send) (store_in store.now) d c }
{
    if is_no_timeout(t) {
        return Err(Refusal::NoTimeout);
    }
    if is_late_at_sender(x, t) {
        return Err(Refusal::TimeoutPassed);
    }
    if is_send_at_top(c) {
        return Err(Refusal::CounterAtEnd);
    }
    if !has_free(store, count) {
        return Err(Refusal::NoFreeRecord);
    }
    Ok(())
}

// Receive (2): lines 8, 9, 11 and 14, then those of `delivery_row`.
#[tactic(auto, using(verdicts::proofs::RowLines::receive_lines))]
pub fn receive_row(
    store: &[u8],
    count: usize,
    x: Context,
    p: Packet,
    v: Verdict,
    c: Channel,
) -> Result<(), Refusal>
    requires { RecordsInOrder store.now count }
    ensures { (d : Datagram) → d.context ≡ x → d.packet ≡ p → d.verdict ≡ v →
        answer_of result ≡ number_behind 7 (some receive) (store_in store.now) d c }
{
    if lacks_connection(x) {
        return Err(Refusal::NoConnection);
    }
    if !fits_destination(c, p) {
        return Err(Refusal::WrongEnd);
    }
    let timeout = p.timeout;
    let late = is_late_at_receiver(x, timeout);
    if refuses_late(c, late) {
        return Err(Refusal::TimeoutPassed);
    }
    commitment_difference(p, v)?;
    delivery_row(store, count, p, late, c)
}

// 20, for 2: a record is needed, and there is no room for it.
#[tactic(auto, using(slots::proofs::FieldLaws::by_fields))]
fn lacks_record(store: &[u8], count: usize, c: Channel, late: bool) -> bool
    requires { RecordsInOrder store.now count }
    ensures { result ≡ (needs_record c late and not (has_free (store_in store.now).records)) }
{
    needs_record(c, late) && !has_free(store, count)
}

// Lines 15, 16, 19 and 20 of a receive: behind the verdict, what the channel end and the packet records say.
#[tactic(auto, using(verdicts::proofs::RowLines::delivery_lines))]
fn delivery_row(
    store: &[u8],
    count: usize,
    p: Packet,
    late: bool,
    c: Channel,
) -> Result<(), Refusal>
    requires { RecordsInOrder store.now count }
    ensures { (d : Datagram) → d.packet ≡ p → comes_late d ≡ late →
        answer_of result ≡ number_behind 14 (some receive) (store_in store.now) d c }
{
    if !receives_in_order(c, p.sequence) {
        return Err(Refusal::OutOfOrder);
    }
    if is_receipt_there(store, count, c, p.sequence) {
        return Err(Refusal::AlreadyThere);
    }
    if is_receive_at_top(c) {
        return Err(Refusal::CounterAtEnd);
    }
    if lacks_record(store, count, c, late) {
        return Err(Refusal::NoFreeRecord);
    }
    Ok(())
}

// 18: a digest of zeros stands for an empty acknowledgement.
fn is_empty(digest: [u8; DIGEST]) -> bool
    ensures { result ≡ are_zero digest }
{
    digest == [0; DIGEST]
}

// Write acknowledgement (3): lines 16, 17, 18 and 20.
#[tactic(auto, using(verdicts::proofs::RowLines::write_lines))]
pub fn write_row(
    store: &[u8],
    count: usize,
    sequence: u64,
    digest: [u8; 32],
    c: Channel,
) -> Result<(), Refusal>
    requires { RecordsInOrder store.now count }
    ensures { (d : Datagram) → d.sequence ≡ sequence → d.digest ≡ digest →
        answer_of result ≡ number_behind 7 (some write) (store_in store.now) d c }
{
    let k = Key {
        kind: Record::ACKNOWLEDGEMENT,
        channel: c.own.channel,
        sequence: sequence,
    };
    if has_record(store, count, k) {
        return Err(Refusal::AlreadyThere);
    }
    if !is_received(store, count, c, sequence) {
        return Err(Refusal::NotReceived);
    }
    if is_empty(digest) {
        return Err(Refusal::EmptyAcknowledgement);
    }
    if !has_free(store, count) {
        return Err(Refusal::NoFreeRecord);
    }
    Ok(())
}

// Acknowledge (4): lines 8, 9, 13 and 14, then those of `acknowledgement_row`.
#[tactic(auto, using(verdicts::proofs::RowLines::acknowledge_lines))]
pub fn acknowledge_row(
    store: &[u8],
    count: usize,
    x: Context,
    p: Packet,
    digest: [u8; 32],
    v: Verdict,
    c: Channel,
) -> Result<(), Refusal>
    requires { RecordsInOrder store.now count }
    ensures { (d : Datagram) → d.context ≡ x → d.packet ≡ p → d.digest ≡ digest → d.verdict ≡ v →
        answer_of result ≡ number_behind 7 (some acknowledge) (store_in store.now) d c }
{
    if lacks_connection(x) {
        return Err(Refusal::NoConnection);
    }
    if !fits_source(c, p) {
        return Err(Refusal::WrongEnd);
    }
    if !is_committed(store, count, p) {
        return Err(Refusal::NoCommitment);
    }
    acknowledgement_difference(p, digest, v)?;
    acknowledgement_row(p, c)
}

// Lines 15 and 19 of an acknowledge: behind the verdict, what the channel end says.
#[tactic(auto, using(verdicts::proofs::RowLines::acknowledgement_lines))]
fn acknowledgement_row(p: Packet, c: Channel) -> Result<(), Refusal>
    ensures { (s : Store) (d : Datagram) → d.packet ≡ p → answer_of result ≡ number_behind 14 (some acknowledge) s d c }
{
    if !acknowledges_in_order(c, p.sequence) {
        return Err(Refusal::OutOfOrder);
    }
    if is_acknowledge_at_top(c) {
        return Err(Refusal::CounterAtEnd);
    }
    Ok(())
}

// Time out (5): lines 9, 12, 13 and 14, then those of `timed_out_row`.
#[tactic(auto, using(verdicts::proofs::RowLines::time_out_lines))]
pub fn time_out_row(
    store: &[u8],
    count: usize,
    p: Packet,
    v: Verdict,
    c: Channel,
) -> Result<(), Refusal>
    requires { RecordsInOrder store.now count }
    ensures { (d : Datagram) → d.packet ≡ p → d.verdict ≡ v →
        answer_of result ≡ number_behind 7 (some time_out) (store_in store.now) d c }
{
    if !fits_source(c, p) {
        return Err(Refusal::WrongEnd);
    }
    let timeout = p.timeout;
    if !is_proved_late(timeout, v) {
        return Err(Refusal::TimeoutNotPassed);
    }
    if !is_committed(store, count, p) {
        return Err(Refusal::NoCommitment);
    }
    absence_difference(false, c, p, v)?;
    timed_out_row(p, v, c)
}

// Lines 15 and 19 of a time-out, and of one on close (12), which has these before its last: behind the verdict, whether
// it shows that the packet was taken, and what the channel end says.
#[tactic(auto, using(verdicts::proofs::RowLines::timed_out_lines))]
pub fn timed_out_row(p: Packet, v: Verdict, c: Channel) -> Result<(), Refusal>
    ensures { (s : Store) (d : Datagram) → d.packet ≡ p → d.verdict ≡ v →
        answer_of result ≡ number_behind 14 (some time_out) s d c }
{
    if claims_taken(v, p.sequence) {
        return Err(Refusal::OutOfOrder);
    }
    if !times_out_in_order(c, p.sequence) {
        return Err(Refusal::OutOfOrder);
    }
    if is_timeout_at_top(c) {
        return Err(Refusal::CounterAtEnd);
    }
    Ok(())
}
