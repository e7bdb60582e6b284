// The well-formed datagrams, and their kinds.
#![tactic(auto)]

ghost use Rattle.std.specs.Prelude.{◌≡◌, true, false, ◌+◌, ◌≤◌, ltb, length, IsSome, IfSome, IfNone};
ghost use Rattle.std.proofs.Math.Option.{some};
ghost use Rattle.wire.specs.Choice.{is_some};
ghost use Rattle.wire.specs.Frame.{frame_in};
ghost use Rattle.slots.specs.Codes.{is_order};
ghost use Rattle.datagram.specs.Kind.{kind_of, kind_by, body_from, packet_size, body, has_part, size_of, is_sized};
ghost use Rattle.datagram.specs.Kind.{verdict_part, order_part, end_verdict_part};
ghost use Rattle.datagram.specs.Claim.{claim_of};
ghost use Rattle.datagram.specs.Datagram.{kind_in, packet_in, verdict_from, end_verdict_from, order_from};
ghost use Rattle.datagram.specs.Datagram.{is_context_sound, is_sound};
ghost use Rattle.sound.specs.Sound.{is_body_sound};

use datagram::Verdict;
use datagram::kind::Kind;
use datagram::place::{BODY, END_VERDICT, PACKET, VERDICT, end_verdict_place, verdict_place};
use datagram::read::{order_in, sequence_in};
use slots::Channel;
use wire::{DIGEST, FRAME, frame_in, u16_at, u64_at};

// The lengths of datagrams, without the version that may end an open init and an open try.
const SEND: usize = BODY + 20 + DIGEST;

const RECEIVE: usize = BODY + PACKET + VERDICT;

const WRITE: usize = BODY + 12 + DIGEST;

const ACKNOWLEDGE: usize = BODY + PACKET + DIGEST + VERDICT;

const OPEN_INIT: usize = BODY + 3;

const OPEN_TRY: usize = BODY + 7 + END_VERDICT;

const OPEN_ACKNOWLEDGE: usize = BODY + 8 + END_VERDICT;

const OPEN_CONFIRM: usize = BODY + 4 + END_VERDICT;

const CLOSE_INIT: usize = BODY + 4;

const TIME_OUT_ON_CLOSE: usize = BODY + PACKET + END_VERDICT + VERDICT;

// A time-out is as long as a receive, a close confirm as an open confirm.
fn is_sized(kind: Kind, size: usize) -> bool
    ensures { result ≡ is_sized (some (kind_by kind)) size }
{
    match kind {
        Kind::Send => size == SEND,
        Kind::Receive | Kind::TimeOut => size == RECEIVE,
        Kind::Write => size == WRITE,
        Kind::Acknowledge => size == ACKNOWLEDGE,
        Kind::OpenInit => OPEN_INIT <= size,
        Kind::OpenTry => OPEN_TRY <= size,
        Kind::OpenAcknowledge => size == OPEN_ACKNOWLEDGE,
        Kind::OpenConfirm | Kind::CloseConfirm => size == OPEN_CONFIRM,
        Kind::CloseInit => size == CLOSE_INIT,
        Kind::TimeOutOnClose => size == TIME_OUT_ON_CLOSE,
    }
}

// A word of the context is the port, the connection's state, 0 or 1, and five zero bytes: below 2 times 2^16.
fn is_context_sound(d: &[u8]) -> bool
    requires { body_from ≤ length d.now }
    ensures { result ≡ is_context_sound d.now }
{
    (u64_at(d, FRAME + 24) < 131072) & (0 < u64_at(d, FRAME))
}

// The claims, in either form of verdict, are those from 1 to 6.
fn is_claim(claim: u16) -> bool
    ensures { result ≡ is_some (claim_of claim) }
{
    (Verdict::COMMITMENT_PRESENT <= claim) & (claim <= Verdict::TIMEOUT_RECEIPT_PRESENT)
}

// A packet's sequence is not 0.
#[tactic(auto, unfolding(datagram::specs::Datagram::packet_in))]
fn is_packet_sound(d: &[u8]) -> bool
    requires { body_from + packet_size ≤ length d.now }
    ensures { result ≡ ltb 0 (packet_in body_from d.now).sequence }
{
    0 < u64_at(d, BODY)
}

// The claim of a verdict is known.
fn is_verdict_sound(d: &[u8], kind: Kind) -> bool
    requires { (has_part verdict_part (body (kind_by kind)) ≡ true) × (size_of (some (kind_by kind)) ≤ length d.now) }
    ensures { result ≡ is_some (claim_of (verdict_from (some (kind_by kind)) d.now).claim) }
{
    is_claim(u16_at(d, verdict_place(kind)))
}

fn is_end_verdict_sound(d: &[u8], kind: Kind) -> bool
    requires { (has_part end_verdict_part (body (kind_by kind)) ≡ true) ×
        (size_of (some (kind_by kind)) ≤ length d.now) }
    ensures { result ≡ is_some (claim_of (end_verdict_from (some (kind_by kind)) d.now).claim) }
{
    is_claim(u16_at(d, end_verdict_place(kind)))
}

fn is_order_sound(d: &[u8], kind: Kind) -> bool
    requires { (has_part order_part (body (kind_by kind)) ≡ true) × (size_of (some (kind_by kind)) ≤ length d.now) }
    ensures { result ≡ is_order (order_from (some (kind_by kind)) d.now) }
{
    let order = order_in(d, kind);
    (Channel::ORDERED <= order) & (order <= Channel::ALLOW_TIMEOUT)
}

fn is_body_sound(d: &[u8], kind: Kind) -> bool
    requires { size_of (some (kind_by kind)) ≤ length d.now }
    ensures { result ≡ is_body_sound (some (kind_by kind)) d.now }
{
    match kind {
        Kind::Send | Kind::CloseInit => true,
        Kind::Receive | Kind::Acknowledge | Kind::TimeOut => {
            is_packet_sound(d) & is_verdict_sound(d, kind)
        }
        Kind::Write => 0 < sequence_in(d),
        Kind::OpenInit => is_order_sound(d, kind),
        Kind::OpenTry => is_order_sound(d, kind) & is_end_verdict_sound(d, kind),
        Kind::OpenAcknowledge | Kind::OpenConfirm | Kind::CloseConfirm => {
            is_end_verdict_sound(d, kind)
        }
        Kind::TimeOutOnClose => {
            is_packet_sound(d) & is_end_verdict_sound(d, kind) & is_verdict_sound(d, kind)
        }
    }
}

// What is left to test of a whole frame of a known kind: its length by kind, its context, and its body by kind.
fn is_sound(d: &[u8], kind: Kind) -> bool
    requires { IsSome (frame_in d.now) × (kind_of (kind_in d.now) ≡ some (kind_by kind)) }
    ensures { result ≡ is_sound d.now }
{
    if !is_sized(kind, d.len()) {
        return false;
    }
    is_context_sound(d) & is_body_sound(d, kind)
}

// The kind of a datagram that is well formed, and none where it is not.
pub fn sound_kind(d: &[u8]) -> Option<Kind>
    ensures sound { IfSome result (λ k. (is_sound d.now ≡ true) × (kind_of (kind_in d.now) ≡ some (kind_by k))) }
    ensures unsound { IfNone result (is_sound d.now ≡ false) }
{
    let frame = frame_in(d)?;
    let kind = Kind::try_from(frame.kind).ok()?;
    is_sound(d, kind).then_some(kind)
}
