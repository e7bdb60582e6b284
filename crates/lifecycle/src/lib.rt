// The channel end that a step of a channel's lifecycle leaves: a new one, one that opens, or one that closes.
#![tactic(auto)]

ghost use Rattle.std.specs.Prelude.{◌≡◌, true, ◌≤◌, length};
ghost use Rattle.std.proofs.Math.Option.{some};
ghost use Rattle.datagram.specs.Kind.{open_init, open_try, open_acknowledge, kind_by, size_of, body, has_part};
ghost use Rattle.datagram.specs.Kind.{order_part, version_part};
ghost use Rattle.datagram.specs.Datagram.{datagram_of};
ghost use Rattle.rules.specs.Ordering.{closed};
ghost use Rattle.rules.specs.Handshake.{new_end, init_end, tried_end, answered_end, opened_end};
ghost use Rattle.lifecycle.specs.Number.{NumberLeft};

use datagram::kind::Kind;
use datagram::place::version_place;
use datagram::read::{context_in, counterparty_channel_in, counterparty_port_in, order_in};
use handshake::{moved, new_end};
use slots::{Channel, PortChannel};
use versions::version_from;

// The end that a datagram makes, by what it says of it.
fn end_made(d: &[u8], kind: Kind, next: u64, state: u8, counterparty: PortChannel) -> Channel
    requires { (has_part order_part (body (kind_by kind)) ≡ true) ×
        (has_part version_part (body (kind_by kind)) ≡ true) ×
        (size_of (some (kind_by kind)) ≤ length d.now) × NumberLeft next (datagram_of (some (kind_by kind)) d.now) }
    ensures { result ≡ new_end state counterparty next (datagram_of (some (kind_by kind)) d.now) }
{
    let context = context_in(d);
    let order = order_in(d, kind);
    let version = version_from(d, version_place(kind));
    let own = PortChannel {
        port: context.port,
        channel: next as u32,
    };
    new_end(state, order, own, counterparty, version)
}

// Open init: an INIT end, which knows its counterparty's port alone.
pub fn init_end(d: &[u8], next: u64) -> Channel
    requires { (size_of (some open_init) ≤ length d.now) × NumberLeft next (datagram_of (some open_init) d.now) }
    ensures { result ≡ init_end next (datagram_of (some open_init) d.now) }
{
    let counterparty = PortChannel {
        port: counterparty_port_in(d),
        channel: 0,
    };
    end_made(d, Kind::OpenInit, next, Channel::INIT, counterparty)
}

// Open try: a TRYOPEN end, which names the INIT end.
pub fn tried_end(d: &[u8], next: u64) -> Channel
    requires { (size_of (some open_try) ≤ length d.now) × NumberLeft next (datagram_of (some open_try) d.now) }
    ensures { result ≡ tried_end next (datagram_of (some open_try) d.now) }
{
    let counterparty = PortChannel {
        port: counterparty_port_in(d),
        channel: counterparty_channel_in(d, Kind::OpenTry),
    };
    end_made(d, Kind::OpenTry, next, Channel::TRY_OPEN, counterparty)
}

// Open acknowledge: the end becomes OPEN, and names the end that answered it.
pub fn answered_end(d: &[u8], c: Channel) -> Channel
    requires { size_of (some open_acknowledge) ≤ length d.now }
    ensures { result ≡ answered_end c (datagram_of (some open_acknowledge) d.now) }
{
    let answering = PortChannel {
        port: c.counterparty.port,
        channel: counterparty_channel_in(d, Kind::OpenAcknowledge),
    };
    moved(Channel::OPEN, answering, c)
}

// Open confirm.
pub fn opened_end(c: Channel) -> Channel
    ensures { result ≡ opened_end c }
{
    moved(Channel::OPEN, c.counterparty, c)
}

// Close init, close confirm, and a time-out on an ordered channel.
pub fn closed_end(c: Channel) -> Channel
    ensures { result ≡ closed c }
{
    moved(Channel::CLOSED, c.counterparty, c)
}
