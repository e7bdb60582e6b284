// Opening and closing: the record of the other end that a step needs, compared with the one that its verdict shows; a
// new end, and an end in another state.
#![tactic(auto)]

ghost use Rattle.std.specs.Prelude.{◌≡◌};
ghost use Rattle.refusal.specs.Number.{answer_of};
ghost use Rattle.slots.specs.Codes.{state_init, state_try_open};
ghost use Rattle.slots.specs.Version.{padded};
ghost use Rattle.datagram.specs.Datagram.{Datagram};
ghost use Rattle.rules.specs.Verdict.{same_but_version, first_end_difference, has_version};
ghost use Rattle.rules.specs.Ordering.{moved};
ghost use Rattle.rules.specs.Refusals.{no_channel};
ghost use Rattle.rules.specs.Handshake.{port_only, new_end, needed_end, needed_peer};

use datagram::EndVerdict;
use refusal::{Refusal, VerdictPart};
use slots::{Channel, Counters, PortChannel, VERSION};

#[tactic(auto, using(slots::proofs::FieldLaws::by_fields), unfolding(rules::specs::Verdict::same_but_version, rules::specs::Verdict::same_counters))]
fn same_but_version(a: Channel, b: Channel) -> bool
    ensures { result ≡ same_but_version a b }
{
    a.state == b.state
        && a.order == b.order
        && a.own == b.own
        && a.counterparty == b.counterparty
        && a.next == b.next
}

// For 7 to 9, 11 and 12: 140 the claim, 145 the record but for its version; `Ok` where none of them differs.
#[tactic(auto, using(slots::proofs::FieldLaws::by_fields), unfolding(rules::specs::Verdict::first_end_difference))]
pub fn end_difference(v: EndVerdict, needed: Channel) -> Result<(), Refusal>
    ensures { answer_of result ≡ first_end_difference v needed }
{
    if v.claim != EndVerdict::END_IS {
        return Err(Refusal::Verdict(VerdictPart::Claim));
    }
    let end = v.end;
    if v.kind != Channel::KIND || !same_but_version(end, needed) {
        return Err(Refusal::Verdict(VerdictPart::Digest));
    }
    Ok(())
}

// 27, for 7 to 9, 11 and 12.
#[tactic(auto, using(wire::proofs::ZeroLaws::equal_arrays), unfolding(rules::specs::Verdict::has_version))]
pub fn has_version(v: EndVerdict, needed: Channel) -> bool
    ensures { result ≡ has_version v needed }
{
    v.end.version == needed.version
}

// A verdict shows an end with zero counters.
#[tactic(auto, unfolding(rules::specs::Handshake::needed_end))]
fn needed_end(
    state: u8,
    order: u8,
    own: PortChannel,
    counterparty: PortChannel,
    version: [u8; VERSION],
) -> Channel
    ensures { result ≡ needed_end state order own counterparty version }
{
    Channel {
        state,
        order,
        own,
        counterparty,
        next: Counters::default(),
        version,
    }
}

// An open try needs the INIT end that the datagram names, which knows of this one its port alone.
pub fn needed_init(
    port: u16,
    order: u8,
    counterparty: PortChannel,
    version: [u8; VERSION],
) -> Channel
    ensures { result ≡ needed_end state_init order counterparty (port_only port) version }
{
    let own = PortChannel { port, channel: 0 };
    needed_end(Channel::INIT, order, counterparty, own, version)
}

// An open acknowledge needs the TRYOPEN end of the datagram's channel, which names this one.
pub fn needed_try_open(c: Channel, channel: u32) -> Channel
    ensures { result ≡
        needed_end state_try_open c.order (record { port = c.counterparty.port; channel = channel }) c.own
        c.version }
{
    let other = PortChannel {
        channel,
        ..c.counterparty
    };
    needed_end(Channel::TRY_OPEN, c.order, other, c.own, c.version)
}

// The counterparty in a state, which names this end: an open confirm needs it OPEN, a close confirm and a time-out on
// close need it CLOSED.
#[tactic(auto, unfolding(rules::specs::Handshake::needed_peer))]
pub fn needed_peer(state: u8, c: Channel) -> Channel
    ensures { result ≡ needed_peer state c }
{
    needed_end(state, c.order, c.counterparty, c.own, c.version)
}

// A new end, for a datagram of this order, version and caller's port.
#[tactic(auto, unfolding(rules::specs::Handshake::new_end))]
pub fn new_end(
    state: u8,
    order: u8,
    own: PortChannel,
    counterparty: PortChannel,
    version: [u8; VERSION],
) -> Channel
    ensures { (d : Datagram) → d.order ≡ order → d.context.port ≡ own.port → padded d.version ≡ version →
        result ≡ new_end state counterparty own.channel d }
{
    Channel {
        state,
        order,
        own,
        counterparty,
        next: Counters {
            send: 1,
            receive: 1,
            acknowledge: 1,
        },
        version,
    }
}

// The end in another state, with this counterparty.
#[tactic(auto, unfolding(rules::specs::Ordering::moved))]
pub fn moved(state: u8, counterparty: PortChannel, c: Channel) -> Channel
    ensures { result ≡ moved state counterparty c }
{
    Channel {
        state,
        counterparty,
        ..c
    }
}

// What stands for the end that a datagram is about where none is there.
#[tactic(auto, unfolding(rules::specs::Refusals::no_channel))]
pub fn no_channel() -> Channel
    ensures { result ≡ no_channel }
{
    Channel::default()
}
