// What a datagram holds, read into structs by value. A part that lies at one place in every kind that has it is read
// there; of another the kind tells the place.
ghost use Rattle.std.specs.Prelude.{◌≡◌, true, ◌+◌, ◌≤◌, length};
ghost use Rattle.std.proofs.Math.Option.{some};
ghost use Rattle.wire.specs.Bytes.{field};
ghost use Rattle.slots.specs.Part.{timeout_in};
ghost use Rattle.wire.specs.Frame.{frame_size};
ghost use Rattle.datagram.specs.Kind.{kind_by, body_from, packet_size, verdict_size, end_verdict_size};
ghost use Rattle.datagram.specs.Kind.{digest_part, verdict_part, counterparty_part, order_part, end_verdict_part};
ghost use Rattle.datagram.specs.Kind.{body, has_part, size_of};
ghost use Rattle.datagram.specs.Datagram.{kind_in, context_in, packet_in, block_in, verdict_in, end_verdict_in};
ghost use Rattle.datagram.specs.Datagram.{digest_from, verdict_from, end_verdict_from, counterparty_from, order_from};
ghost use Rattle.datagram.specs.Datagram.{channel_from};

use crate::kind::Kind;
use crate::place::{
    BODY, counterparty_place, digest_place, end_verdict_place, order_place, verdict_place,
};
use crate::{Block, Context, EndVerdict, Packet, Verdict};
use slots::part::{port_channel_at, timeout_at};
use slots::slot::channel_at;
use slots::{OtherHeight, OtherTime, OwnHeight, OwnTime, Timeout};
use wire::{FRAME, array_at, u16_at, u32_at, u64_at};

// The client's time stands apart from its height, at the end.
#[tactic(auto, unfolding(crate::specs::Datagram::context_in))]
pub fn context_in(d: &[u8]) -> Context
    requires { body_from ≤ length d.now }
    ensures { result ≡ context_in d.now }
{
    Context {
        height: OwnHeight(u64_at(d, FRAME)),
        time: OwnTime(u64_at(d, FRAME + 8)),
        client: Block {
            height: OtherHeight(u64_at(d, FRAME + 16)),
            time: OtherTime(u64_at(d, FRAME + 32)),
        },
        port: u16_at(d, FRAME + 24),
        connected: d[FRAME + 26] == 1,
    }
}

#[tactic(auto, unfolding(crate::specs::Datagram::block_in))]
fn block_at(d: &[u8], at: usize) -> Block
    requires { at + 16 ≤ length d.now }
    ensures { result ≡ block_in at d.now }
{
    Block {
        height: OtherHeight(u64_at(d, at)),
        time: OtherTime(u64_at(d, at + 8)),
    }
}

#[tactic(auto, unfolding(crate::specs::Datagram::verdict_in))]
fn verdict_at(d: &[u8], at: usize) -> Verdict
    requires { at + verdict_size ≤ length d.now }
    ensures { result ≡ verdict_in at d.now }
{
    Verdict {
        claim: u16_at(d, at),
        block: block_at(d, at + 2),
        about: port_channel_at(d, at + 18),
        sequence: u64_at(d, at + 24),
        timeout: timeout_at(d, at + 32),
        digest: array_at(d, at + 48),
    }
}

// The end's record is read as a store's is.
#[tactic(auto, unfolding(crate::specs::Datagram::end_verdict_in))]
fn end_verdict_at(d: &[u8], at: usize) -> EndVerdict
    requires { at + end_verdict_size ≤ length d.now }
    ensures { result ≡ end_verdict_in at d.now }
{
    EndVerdict {
        claim: u16_at(d, at),
        block: block_at(d, at + 2),
        kind: u16_at(d, at + 18),
        end: channel_at(d, at + 18),
    }
}

// The kind that the frame names.
#[tactic(auto, unfolding(crate::specs::Datagram::kind_in))]
pub fn kind_in(d: &[u8]) -> u16
    requires { frame_size ≤ length d.now }
    ensures { result ≡ kind_in d.now }
{
    u16_at(d, 4)
}

pub fn timeout_in(d: &[u8]) -> Timeout
    requires { body_from + 20 ≤ length d.now }
    ensures { result ≡ timeout_in (body_from + 4) d.now }
{
    timeout_at(d, BODY + 4)
}

pub fn sequence_in(d: &[u8]) -> u64
    requires { body_from + 12 ≤ length d.now }
    ensures { result ≡ field (body_from + 4) 8 d.now }
{
    u64_at(d, BODY + 4)
}

#[tactic(auto, unfolding(crate::specs::Datagram::packet_in))]
pub fn packet_in(d: &[u8]) -> Packet
    requires { body_from + packet_size ≤ length d.now }
    ensures { result ≡ packet_in body_from d.now }
{
    Packet {
        sequence: u64_at(d, BODY),
        timeout: timeout_at(d, BODY + 8),
        source: port_channel_at(d, BODY + 24),
        destination: port_channel_at(d, BODY + 30),
        digest: array_at(d, BODY + 36),
    }
}

// The port of the counterparty, in an open init and an open try.
pub fn counterparty_port_in(d: &[u8]) -> u16
    requires { body_from + 2 ≤ length d.now }
    ensures { result ≡ field body_from 2 d.now }
{
    u16_at(d, BODY)
}

// BY KIND, each for the kinds that have the part: the digest of a send, a write and an acknowledge.
#[tactic(auto, using(crate::proofs::KindLaws::part_room), unfolding(crate::specs::Datagram::digest_from))]
pub fn digest_in(d: &[u8], kind: Kind) -> [u8; 32]
    requires { (has_part digest_part (body (kind_by kind)) ≡ true) × (size_of (some (kind_by kind)) ≤ length d.now) }
    ensures { result ≡ digest_from (some (kind_by kind)) d.now }
{
    array_at(d, digest_place(kind))
}

// The verdict of a receive, an acknowledge, a time-out and a time-out on close.
#[tactic(auto, using(crate::proofs::KindLaws::part_room), unfolding(crate::specs::Datagram::verdict_from))]
pub fn verdict_in(d: &[u8], kind: Kind) -> Verdict
    requires { (has_part verdict_part (body (kind_by kind)) ≡ true) × (size_of (some (kind_by kind)) ≤ length d.now) }
    ensures { result ≡ verdict_from (some (kind_by kind)) d.now }
{
    verdict_at(d, verdict_place(kind))
}

// The end verdict of an open try, acknowledge and confirm, of a close confirm and a time-out on close.
#[tactic(auto, using(crate::proofs::KindLaws::part_room), unfolding(crate::specs::Datagram::end_verdict_from))]
pub fn end_verdict_in(d: &[u8], kind: Kind) -> EndVerdict
    requires { (has_part end_verdict_part (body (kind_by kind)) ≡ true) ×
        (size_of (some (kind_by kind)) ≤ length d.now) }
    ensures { result ≡ end_verdict_from (some (kind_by kind)) d.now }
{
    end_verdict_at(d, end_verdict_place(kind))
}

// The channel of the counterparty, in an open try and an open acknowledge.
#[tactic(auto, using(crate::proofs::KindLaws::part_room), unfolding(crate::specs::Datagram::counterparty_from))]
pub fn counterparty_channel_in(d: &[u8], kind: Kind) -> u32
    requires { (has_part counterparty_part (body (kind_by kind)) ≡ true) ×
        (size_of (some (kind_by kind)) ≤ length d.now) }
    ensures { result ≡ (counterparty_from (some (kind_by kind)) d.now).channel }
{
    u32_at(d, counterparty_place(kind))
}

// The order of an open init and an open try.
#[tactic(auto, using(crate::proofs::KindLaws::part_room), unfolding(crate::specs::Datagram::order_from))]
pub fn order_in(d: &[u8], kind: Kind) -> u8
    requires { (has_part order_part (body (kind_by kind)) ≡ true) × (size_of (some (kind_by kind)) ≤ length d.now) }
    ensures { result ≡ order_from (some (kind_by kind)) d.now }
{
    d[order_place(kind)]
}

// The channel that it is about: its own part, or the packet's destination for a receive, its source for the others. An
// open init and an open try make an end, and are about none.
pub fn channel_in(d: &[u8], kind: Kind) -> u32
    requires { size_of (some (kind_by kind)) ≤ length d.now }
    ensures { result ≡ channel_from (some (kind_by kind)) d.now }
{
    match kind {
        Kind::Receive => u32_at(d, BODY + 32),
        Kind::Acknowledge | Kind::TimeOut | Kind::TimeOutOnClose => u32_at(d, BODY + 26),
        Kind::OpenInit | Kind::OpenTry => 0,
        Kind::Send
        | Kind::Write
        | Kind::OpenAcknowledge
        | Kind::OpenConfirm
        | Kind::CloseInit
        | Kind::CloseConfirm => u32_at(d, BODY),
    }
}
