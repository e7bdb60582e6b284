// Where the parts of a datagram lie. The sizes stand here once: behind the frame lies the context, and behind it the
// body, whose parts are by kind. A longer context is another CONTEXT, and what `context_in` reads and `sound` tests of
// it.
#![tactic(auto, unfolding(crate::specs::Kind::body, crate::specs::Kind::size_before))]

ghost use Rattle.std.specs.Prelude.{◌≡◌, true};
ghost use Rattle.std.proofs.Math.Option.{some};
ghost use Rattle.datagram.specs.Kind.{kind_by, digest_part, verdict_part, counterparty_part, order_part};
ghost use Rattle.datagram.specs.Kind.{end_verdict_part, version_part, body, has_part, place_of};

use crate::kind::Kind;
use wire::{DIGEST, FRAME};

const CONTEXT: usize = 40;

pub const BODY: usize = FRAME + CONTEXT;

pub const PACKET: usize = 68;

pub const VERDICT: usize = 80;

// A claim, a height, a time, and a channel record of 64 bytes.
pub const END_VERDICT: usize = 82;

// THE BODY by kind. Send: channel, timeouts, digest. Receive and time-out: packet, verdict. Write: channel, sequence,
// digest. Acknowledge: packet, digest, verdict. Open init: port, order, version. Open try: port, counterparty, order,
// end verdict, version. Open acknowledge: channel, counterparty, end verdict. Open confirm and close confirm: channel,
// end verdict. Close init: channel. Time-out on close: packet, end verdict, verdict.
//
// Each function is for the kinds that have the part; its last line is for those of them that are not named.
pub fn digest_place(kind: Kind) -> usize
    requires { has_part digest_part (body (kind_by kind)) ≡ true }
    ensures { result ≡ place_of digest_part (some (kind_by kind)) }
{
    match kind {
        Kind::Send => BODY + 20,
        Kind::Write => BODY + 12,
        _ => BODY + PACKET,
    }
}

pub fn verdict_place(kind: Kind) -> usize
    requires { has_part verdict_part (body (kind_by kind)) ≡ true }
    ensures { result ≡ place_of verdict_part (some (kind_by kind)) }
{
    match kind {
        Kind::Acknowledge => BODY + PACKET + DIGEST,
        Kind::TimeOutOnClose => BODY + PACKET + END_VERDICT,
        _ => BODY + PACKET,
    }
}

pub fn counterparty_place(kind: Kind) -> usize
    requires { has_part counterparty_part (body (kind_by kind)) ≡ true }
    ensures { result ≡ place_of counterparty_part (some (kind_by kind)) }
{
    match kind {
        Kind::OpenTry => BODY + 2,
        _ => BODY + 4,
    }
}

pub fn order_place(kind: Kind) -> usize
    requires { has_part order_part (body (kind_by kind)) ≡ true }
    ensures { result ≡ place_of order_part (some (kind_by kind)) }
{
    match kind {
        Kind::OpenInit => BODY + 2,
        _ => BODY + 6,
    }
}

pub fn end_verdict_place(kind: Kind) -> usize
    requires { has_part end_verdict_part (body (kind_by kind)) ≡ true }
    ensures { result ≡ place_of end_verdict_part (some (kind_by kind)) }
{
    match kind {
        Kind::OpenTry => BODY + 7,
        Kind::OpenAcknowledge => BODY + 8,
        Kind::TimeOutOnClose => BODY + PACKET,
        _ => BODY + 4,
    }
}

// Where the version starts, the rest of the datagram.
pub fn version_place(kind: Kind) -> usize
    requires { has_part version_part (body (kind_by kind)) ≡ true }
    ensures { result ≡ place_of version_part (some (kind_by kind)) }
{
    match kind {
        Kind::OpenInit => BODY + 3,
        _ => BODY + 7 + END_VERDICT,
    }
}
