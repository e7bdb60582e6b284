// What acceptance does, decided by reads alone: for each kind of datagram what becomes of the ends, the edit of the
// packet records, and the record that is emitted. A new kind is a line of `decide`, and one more such function where it
// is about a packet.
#![tactic(auto)]

ghost use Rattle.std.specs.Prelude.{◌≡◌, false, ◌+◌, ◌≤◌, length};
ghost use Rattle.std.proofs.Math.Option.{some};
ghost use Rattle.datagram.specs.Kind.{send, receive, write, acknowledge, kind_by, body_from, packet_size, size_of};
ghost use Rattle.datagram.specs.Datagram.{packet_in, packet_from, sequence_from, digest_from, datagram_of};
ghost use Rattle.rules.specs.Ordering.{received_kind, is_send_at_top, is_receive_at_top};
ghost use Rattle.rules.specs.Ordering.{is_acknowledge_at_top, is_timeout_at_top};
ghost use Rattle.rules.specs.Refusals.{comes_late};
ghost use Rattle.rules.specs.Acceptance.{sent_packet, commitment, sends, receives};
ghost use Rattle.rules.specs.Acceptance.{writes_acknowledgement, acknowledges, times_out, makes, moves, effect_for};
ghost use Rattle.emit.specs.Output.{packet_record, emitted_by};
ghost use Rattle.effects.specs.Decided.{effect_by, Left};

use datagram::Packet;
use datagram::kind::Kind;
use datagram::read::{context_in, digest_in, packet_in, sequence_in, timeout_in};
use emit::Emission;
use ends::{acknowledged_end, received_end, sent_end, timed_out_end};
use heights::is_late_at_receiver;
use lifecycle::{answered_end, closed_end, init_end, opened_end, tried_end};
use ordering::lapses;
use records::{RecordEdit, freed_commitment, plain_record, received_edit};
use slots::{Channel, Record};

// The ends stay, the one of this number becomes this one, or a new one takes the next channel number.
#[derive(Clone, Copy)]
pub enum EndEdit {
    Leaves,
    Puts(Channel),
    Adds(Channel),
}

#[derive(Clone, Copy)]
pub struct Decision {
    pub ends: EndEdit,
    pub edit: RecordEdit,
    pub emission: Emission,
}

// The packet that a send makes: its sequence is next send, and its ends are the channel's.
fn sent_packet(d: &[u8], c: Channel) -> Packet
    requires { size_of (some send) ≤ length d.now }
    ensures { result ≡ sent_packet c (datagram_of (some send) d.now) }
{
    Packet {
        sequence: c.next.send,
        timeout: timeout_in(d),
        source: c.own,
        destination: c.counterparty,
        digest: digest_in(d, Kind::Send),
    }
}

#[tactic(auto, unfolding(rules::specs::Acceptance::commitment))]
fn commitment_of(p: Packet) -> Record
    ensures { result ≡ commitment p }
{
    let digest = p.digest;
    Record {
        kind: Record::COMMITMENT,
        channel: p.source.channel,
        sequence: p.sequence,
        timeout: p.timeout,
        digest,
    }
}

#[tactic(auto, unfolding(rules::specs::Acceptance::sends))]
fn decide_send(d: &[u8], c: Channel) -> Decision
    requires { (size_of (some send) ≤ length d.now) × (is_send_at_top c ≡ false) }
    ensures { effect_by result ≡ sends c (datagram_of (some send) d.now) }
{
    let packet = sent_packet(d, c);
    Decision {
        ends: EndEdit::Puts(sent_end(c)),
        edit: RecordEdit::Writes(commitment_of(packet)),
        emission: Emission::Sent(packet),
    }
}

// A packet that lapses is not delivered.
#[tactic(auto, unfolding(rules::specs::Ordering::received_kind))]
fn received_emission(c: Channel, late: bool, packet: Packet) -> Emission
    ensures { emitted_by result ≡ packet_record (received_kind c late) packet }
{
    if lapses(c, late) {
        return Emission::Lapsed(packet);
    }
    Emission::Delivered(packet)
}

fn decide_receive(d: &[u8], c: Channel) -> Decision
    requires { (size_of (some receive) ≤ length d.now) × (is_receive_at_top c ≡ false) }
    ensures { effect_by result ≡
        receives c (comes_late (datagram_of (some receive) d.now))
        (packet_from (some receive) d.now) }
{
    let packet = packet_in(d);
    let late = is_late_at_receiver(context_in(d), packet.timeout);
    Decision {
        ends: EndEdit::Puts(received_end(c)),
        edit: received_edit(c, late, packet.sequence),
        emission: received_emission(c, late, packet),
    }
}

// The channel end is the destination of the packet that is acknowledged; the datagram tells the sequence.
fn decide_write(d: &[u8], c: Channel) -> Decision
    requires { size_of (some write) ≤ length d.now }
    ensures { effect_by result ≡
        writes_acknowledgement c (sequence_from (some write) d.now) (digest_from (some write) d.now) }
{
    let sequence = sequence_in(d);
    let digest = digest_in(d, Kind::Write);
    Decision {
        ends: EndEdit::Leaves,
        edit: RecordEdit::Writes(plain_record(
            Record::ACKNOWLEDGEMENT,
            c.own.channel,
            sequence,
            digest,
        )),
        emission: Emission::Written {
            destination: c.own,
            sequence,
            digest,
        },
    }
}

fn decide_acknowledge(d: &[u8], c: Channel) -> Decision
    requires { (size_of (some acknowledge) ≤ length d.now) × (is_acknowledge_at_top c ≡ false) }
    ensures { effect_by result ≡
        acknowledges c (packet_from (some acknowledge) d.now)
        (digest_from (some acknowledge) d.now) }
{
    let packet = packet_in(d);
    Decision {
        ends: EndEdit::Puts(acknowledged_end(c)),
        edit: freed_commitment(c, packet.sequence),
        emission: Emission::Acknowledged {
            packet,
            digest: digest_in(d, Kind::Acknowledge),
        },
    }
}

// A time-out, and one on close: the packet stands at the front of the body of both.
#[tactic(auto, unfolding(rules::specs::Acceptance::times_out))]
fn decide_time_out(d: &[u8], c: Channel) -> Decision
    requires { (body_from + packet_size ≤ length d.now) × (is_timeout_at_top c ≡ false) }
    ensures { effect_by result ≡ times_out c (packet_in body_from d.now) }
{
    let packet = packet_in(d);
    Decision {
        ends: EndEdit::Puts(timed_out_end(c)),
        edit: freed_commitment(c, packet.sequence),
        emission: Emission::TimedOut(packet),
    }
}

// A new end: its port and channel are emitted.
#[tactic(auto, unfolding(rules::specs::Acceptance::makes))]
fn decide_made(end: Channel) -> Decision
    ensures { effect_by result ≡ makes end }
{
    Decision {
        ends: EndEdit::Adds(end),
        edit: RecordEdit::Keeps,
        emission: Emission::Made(end.own),
    }
}

// An end that opens or closes.
#[tactic(auto, unfolding(rules::specs::Acceptance::moves))]
fn decide_moved(end: Channel) -> Decision
    ensures { effect_by result ≡ moves end }
{
    Decision {
        ends: EndEdit::Puts(end),
        edit: RecordEdit::Keeps,
        emission: Emission::Nothing,
    }
}

// What an accepted datagram needs is left: a counter below its top, or a channel number.
#[tactic(auto, unfolding(rules::specs::Acceptance::effect_for, rules::specs::Acceptance::effect_of))]
pub fn decide(d: &[u8], kind: Kind, next: u64, c: Channel) -> Decision
    requires { (size_of (some (kind_by kind)) ≤ length d.now) ×
        Left (some (kind_by kind)) next c (datagram_of (some (kind_by kind)) d.now) }
    ensures { effect_by result ≡ effect_for (some (kind_by kind)) next c (datagram_of (some (kind_by kind)) d.now) }
{
    match kind {
        Kind::Send => decide_send(d, c),
        Kind::Receive => decide_receive(d, c),
        Kind::Write => decide_write(d, c),
        Kind::Acknowledge => decide_acknowledge(d, c),
        Kind::TimeOut | Kind::TimeOutOnClose => decide_time_out(d, c),
        Kind::OpenInit => decide_made(init_end(d, next)),
        Kind::OpenTry => decide_made(tried_end(d, next)),
        Kind::OpenAcknowledge => decide_moved(answered_end(d, c)),
        Kind::OpenConfirm => decide_moved(opened_end(c)),
        Kind::CloseInit | Kind::CloseConfirm => decide_moved(closed_end(c)),
    }
}
