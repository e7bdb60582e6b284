// What depends on a channel's ordering: lines 11 for 2, 14 for 5 and 12, 15, 16 for 2, 17, 19, and 20 for 2; whether a
// packet lapses, and which counters rise. The tests of the ordering are tables'. Beside this crate only entries asks
// them, for the fitness of packet records, and ends, where a time-out closes an ordered channel.
#![tactic(auto)]

ghost use Rattle.std.specs.Prelude.{◌≡◌};
ghost use Rattle.slots.specs.Layout.{store_in};
ghost use Rattle.slots.specs.Ordering.{is_received};
ghost use Rattle.slots.specs.Scan.{RecordsInOrder};
ghost use Rattle.datagram.specs.Claim.{claim_number};
ghost use Rattle.rules.specs.Ordering.{receives_in_order, refuses_late, lapses, is_receipt_there, raises_receive};
ghost use Rattle.rules.specs.Ordering.{acknowledges_in_order, raises_acknowledge, absence_claim, counts_timeouts};
ghost use Rattle.rules.specs.Ordering.{times_out_in_order, is_send_at_top, is_receive_at_top, is_acknowledge_at_top};
ghost use Rattle.rules.specs.Ordering.{is_timeout_at_top, needs_record};

use datagram::Verdict;
use slots::{Channel, Key, Record};
use tables::halves::has_record;
use tables::ordering::{allows_timeouts, is_unordered};

const TOP: u64 = u64::MAX;

// 15, for 2.
#[tactic(auto, using(slots::proofs::FieldLaws::by_fields), unfolding(rules::specs::Ordering::receives_in_order))]
pub fn receives_in_order(c: Channel, sequence: u64) -> bool
    ensures { result ≡ receives_in_order c sequence }
{
    is_unordered(c) || sequence == c.next.receive
}

// 15, for 4.
#[tactic(auto, using(slots::proofs::FieldLaws::by_fields), unfolding(rules::specs::Ordering::acknowledges_in_order))]
pub fn acknowledges_in_order(c: Channel, sequence: u64) -> bool
    ensures { result ≡ acknowledges_in_order c sequence }
{
    is_unordered(c) || sequence == c.next.acknowledge
}

// Where timeouts are allowed, the time-outs of an OPEN end are counted with its acknowledgements.
#[tactic(auto, using(slots::proofs::FieldLaws::by_fields), unfolding(rules::specs::Ordering::counts_timeouts))]
pub fn counts_timeouts(c: Channel) -> bool
    ensures { result ≡ counts_timeouts c }
{
    allows_timeouts(c) && c.state == Channel::OPEN
}

// 15, for 5 and 12.
#[tactic(auto, using(slots::proofs::FieldLaws::by_fields), unfolding(rules::specs::Ordering::times_out_in_order))]
pub fn times_out_in_order(c: Channel, sequence: u64) -> bool
    ensures { result ≡ times_out_in_order c sequence }
{
    !counts_timeouts(c) || sequence == c.next.acknowledge
}

// 11, for 2: a packet that comes late is refused, but where timeouts are allowed: there it lapses.
#[tactic(auto, using(slots::proofs::FieldLaws::by_fields), unfolding(rules::specs::Ordering::refuses_late))]
pub fn refuses_late(c: Channel, late: bool) -> bool
    ensures { result ≡ refuses_late c late }
{
    !allows_timeouts(c) && late
}

#[tactic(auto, using(slots::proofs::FieldLaws::by_fields), unfolding(rules::specs::Ordering::lapses))]
pub fn lapses(c: Channel, late: bool) -> bool
    ensures { result ≡ lapses c late }
{
    allows_timeouts(c) && late
}

// 16, for 2: a receipt is there. Only an unordered channel has any.
#[tactic(auto, using(slots::proofs::FieldLaws::by_fields), unfolding(rules::specs::Ordering::is_receipt_there))]
pub fn is_receipt_there(store: &[u8], count: usize, c: Channel, sequence: u64) -> bool
    requires { RecordsInOrder store.now count }
    ensures { result ≡ is_receipt_there (store_in store.now).records c sequence }
{
    let k = Key {
        channel: c.own.channel,
        kind: Record::RECEIPT,
        sequence,
    };
    is_unordered(c) && has_record(store, count, k)
}

// 17, for 3.
pub fn is_received(store: &[u8], count: usize, c: Channel, sequence: u64) -> bool
    requires { RecordsInOrder store.now count }
    ensures { result ≡ is_received (store_in store.now).records c sequence }
{
    tables::ordering::is_received(c, sequence, |k| has_record(store, count, k))
}

// Line 14, for 5 and 12: what a verdict has to claim of a packet that was not received. On close, where timeouts are
// allowed, the claim that it has says which of two is meant.
#[tactic(auto, using(slots::proofs::FieldLaws::by_fields), unfolding(rules::specs::Ordering::absence_claim))]
pub fn absence_claim(on_close: bool, c: Channel, claimed: u16) -> u16
    ensures { result ≡ claim_number (absence_claim on_close c claimed) }
{
    if is_unordered(c) {
        Verdict::RECEIPT_ABSENT
    } else if allows_timeouts(c) & (!on_close | (claimed == Verdict::TIMEOUT_RECEIPT_PRESENT)) {
        Verdict::TIMEOUT_RECEIPT_PRESENT
    } else {
        Verdict::NEXT_RECEIVE_IS
    }
}

// A receive and an acknowledge raise their counter, except on an unordered channel.
#[tactic(auto, unfolding(rules::specs::Ordering::raises_receive, rules::specs::Ordering::raises_acknowledge))]
pub fn raises_counter(c: Channel) -> bool
    ensures { (result ≡ raises_receive c) × (result ≡ raises_acknowledge c) }
{
    !is_unordered(c)
}

// 19: a counter at its top can't be raised. A send (1) raises one on every channel, a receive (2) and an acknowledge
// (4) except on unordered ones, a time-out (5, 12) where it is counted.
#[tactic(auto, using(slots::proofs::FieldLaws::by_fields), unfolding(rules::specs::Ordering::is_send_at_top))]
pub fn is_send_at_top(c: Channel) -> bool
    ensures { result ≡ is_send_at_top c }
{
    c.next.send == TOP
}

#[tactic(auto, using(slots::proofs::FieldLaws::by_fields), unfolding(rules::specs::Ordering::is_receive_at_top))]
pub fn is_receive_at_top(c: Channel) -> bool
    ensures { result ≡ is_receive_at_top c }
{
    raises_counter(c) && c.next.receive == TOP
}

#[tactic(auto, using(slots::proofs::FieldLaws::by_fields), unfolding(rules::specs::Ordering::is_acknowledge_at_top))]
pub fn is_acknowledge_at_top(c: Channel) -> bool
    ensures { result ≡ is_acknowledge_at_top c }
{
    raises_counter(c) && c.next.acknowledge == TOP
}

#[tactic(auto, using(slots::proofs::FieldLaws::by_fields), unfolding(rules::specs::Ordering::is_timeout_at_top))]
pub fn is_timeout_at_top(c: Channel) -> bool
    ensures { result ≡ is_timeout_at_top c }
{
    counts_timeouts(c) && c.next.acknowledge == TOP
}

// 20, for 2: a receive writes a record where it raises no counter, or the packet lapses.
#[tactic(auto, using(slots::proofs::FieldLaws::by_fields), unfolding(rules::specs::Ordering::needs_record))]
pub fn needs_record(c: Channel, late: bool) -> bool
    ensures { result ≡ needs_record c late }
{
    !raises_counter(c) || lapses(c, late)
}
