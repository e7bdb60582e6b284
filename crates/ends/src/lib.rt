// The channel end that acceptance of a packet leaves, by the kind of datagram and the channel's ordering.
#![tactic(auto)]

ghost use Rattle.std.specs.Prelude.{◌≡◌, false, ◌+◌, eqb};
ghost use Rattle.wire.specs.Choice.{◌and◌, pick};
ghost use Rattle.slots.specs.Limits.{top};
ghost use Rattle.rules.specs.Ordering.{is_send_at_top, is_receive_at_top, is_acknowledge_at_top};
ghost use Rattle.rules.specs.Ordering.{is_timeout_at_top, counted};
ghost use Rattle.rules.specs.Ordering.{raised_send, raised_acknowledge, received_end, acknowledged_end, timed_out_end};

use lifecycle::closed_end;
use ordering::{counts_timeouts, raises_counter};
use slots::{Channel, Counters};
use tables::ordering::is_ordered;

// A counter that rises is below 2^64 - 1: the table's line 19 refused it otherwise.
fn raised(counter: u64, rises: bool) -> u64
    requires { (rises and eqb counter top) ≡ false }
    ensures { result ≡ pick rises (counter + 1) counter }
{
    if rises { counter + 1 } else { counter }
}

#[tactic(auto, unfolding(rules::specs::Ordering::is_send_at_top, rules::specs::Ordering::counted))]
pub fn sent_end(c: Channel) -> Channel
    requires { is_send_at_top c ≡ false }
    ensures { result ≡ counted c (raised_send c.next) }
{
    Channel {
        next: Counters {
            send: c.next.send + 1,
            ..c.next
        },
        ..c
    }
}

pub fn received_end(c: Channel) -> Channel
    requires { is_receive_at_top c ≡ false }
    ensures { result ≡ received_end c }
{
    Channel {
        next: Counters {
            receive: raised(c.next.receive, raises_counter(c)),
            ..c.next
        },
        ..c
    }
}

// Next acknowledge rises or stays.
#[tactic(auto, unfolding(rules::specs::Ordering::counted))]
fn with_acknowledge(c: Channel, rises: bool) -> Channel
    requires { (rises and eqb c.next.acknowledge top) ≡ false }
    ensures { result ≡ pick rises (counted c (raised_acknowledge c.next)) c }
{
    Channel {
        next: Counters {
            acknowledge: raised(c.next.acknowledge, rises),
            ..c.next
        },
        ..c
    }
}

#[tactic(auto, unfolding(rules::specs::Ordering::is_acknowledge_at_top, rules::specs::Ordering::acknowledged_end))]
pub fn acknowledged_end(c: Channel) -> Channel
    requires { is_acknowledge_at_top c ≡ false }
    ensures { result ≡ acknowledged_end c }
{
    with_acknowledge(c, raises_counter(c))
}

// An ordered channel becomes CLOSED: no later packet of it can be received in order. Where timeouts are allowed the
// state stays, and next acknowledge rises where it counts them.
#[tactic(auto, unfolding(rules::specs::Ordering::is_timeout_at_top, rules::specs::Ordering::timed_out_end))]
pub fn timed_out_end(c: Channel) -> Channel
    requires { is_timeout_at_top c ≡ false }
    ensures { result ≡ timed_out_end c }
{
    if is_ordered(c) {
        return closed_end(c);
    }
    with_acknowledge(c, counts_timeouts(c))
}
