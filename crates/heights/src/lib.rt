// Heights and times: timeouts that have passed, and a clock that goes back. A packet's timeouts are the other ledger's
// at its sender and this ledger's at its receiver; four conversions say which.
#![tactic(auto)]

ghost use Rattle.std.specs.Prelude.{◌≡◌, not, ◌&&◌};
ghost use Rattle.std.specs.Ordering.{partial_le};
ghost use Rattle.slots.specs.declared.Timeout.{Timeout};
ghost use Rattle.slots.specs.Layout.{Store};
ghost use Rattle.slots.specs.Height.{height_at_sender, time_at_sender, height_at_receiver, time_at_receiver};
ghost use Rattle.slots.specs.Height.{no_timeout, same_timeout};
ghost use Rattle.rules.specs.Refusals.{goes_back, has_passed_at, is_late_at_sender};
ghost use Rattle.rules.specs.Refusals.{is_late_at_receiver, is_proved_late};

use datagram::{Block, Context, Verdict};
use slots::{OtherHeight, OtherTime, OwnHeight, OwnTime, Timeout};

fn height_at_sender(t: Timeout) -> OtherHeight
    ensures { result ≡ height_at_sender t }
{
    OtherHeight(t.height)
}

fn time_at_sender(t: Timeout) -> OtherTime
    ensures { result ≡ time_at_sender t }
{
    OtherTime(t.time)
}

fn height_at_receiver(t: Timeout) -> OwnHeight
    ensures { result ≡ height_at_receiver t }
{
    OwnHeight(t.height)
}

fn time_at_receiver(t: Timeout) -> OwnTime
    ensures { result ≡ time_at_receiver t }
{
    OwnTime(t.time)
}

pub fn no_timeout() -> Timeout
    ensures { result ≡ no_timeout }
{
    Timeout::NONE
}

#[tactic(auto, using(slots::proofs::FieldLaws::by_fields))]
pub fn same_timeout(t: Timeout, u: Timeout) -> bool
    ensures { result ≡ same_timeout t u }
{
    t == u
}

// 10: neither height nor time.
#[tactic(auto, using(slots::proofs::FieldLaws::by_fields))]
pub fn is_no_timeout(t: Timeout) -> bool
    ensures { result ≡ same_timeout t no_timeout }
{
    t == Timeout::NONE
}

// At or above a limit, of a height or a time. The default limit, 0, is none.
fn is_past<T: PartialOrd + Default + Copy>(limit: T, reached: T) -> bool
    ensures { (none : T) × T.is_default none ×
        (result ≡ (not (T.eq limit none) && partial_le T.partial_cmp limit reached)) }
{
    limit != T::default() && limit <= reached
}

// A timeout has passed at a block of the other ledger.
fn has_passed_at(block: Block, t: Timeout) -> bool
    ensures { result ≡ has_passed_at block t }
{
    is_past(height_at_sender(t), block.height) || is_past(time_at_sender(t), block.time)
}

// 4: the clock of a call, against the store's last height and time.
#[tactic(auto, using(slots::proofs::FieldLaws::by_fields), unfolding(rules::specs::Refusals::goes_back))]
pub fn goes_back(last: OwnHeight, last_time: OwnTime, x: Context) -> bool
    ensures { (s : Store) → s.height ≡ last → s.time ≡ last_time → result ≡ goes_back s x }
{
    x.height < last || x.time < last_time || x.height == last && x.time != last_time
}

// 11, at the sender: by the client's latest block of the other ledger.
#[tactic(auto, unfolding(rules::specs::Refusals::is_late_at_sender))]
pub fn is_late_at_sender(x: Context, t: Timeout) -> bool
    ensures { result ≡ is_late_at_sender x t }
{
    has_passed_at(x.client, t)
}

// 11, at the receiver: by its own height or time.
pub fn is_late_at_receiver(x: Context, u: Timeout) -> bool
    ensures { result ≡ is_late_at_receiver x u }
{
    is_past(height_at_receiver(u), x.height) || is_past(time_at_receiver(u), x.time)
}

// 12: by the verdict's block of the other ledger.
#[tactic(auto, unfolding(rules::specs::Refusals::is_proved_late))]
pub fn is_proved_late(t: Timeout, v: Verdict) -> bool
    ensures { result ≡ is_proved_late t v }
{
    has_passed_at(v.block, t)
}
