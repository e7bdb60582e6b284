// Changes of a lent store, as acceptance makes them, a step at a time: the times, the next channel number, one channel
// end, the packet records from one on. Each step leaves the bytes of the store with that part replaced, and no other
// byte changed.
#![tactic(auto)]

mod shift; // bytes moved up or down by a slot

ghost use Rattle.std.specs.Prelude.{◌≡◌, ◌+◌, ◌<◌, length};
ghost use Rattle.std.proofs.Math.Option.{some};
ghost use Rattle.slots.specs.Limits.{channel_limit};
ghost use Rattle.slots.specs.Layout.{bytes_of, store_in};
ghost use Rattle.slots.specs.Effect.{Exact, with_times, with_next, with_channel_slot, with_records};
ghost use Rattle.slots.specs.Effect.{inserted_at, removed_at};

use shift::{shift_down, shift_up};
use slots::slot::{put_channel, put_record};
use slots::{Channel, Layout, OwnHeight, OwnTime, Record};
use wire::{put_u64, put_zeros};

// Last height and time.
#[tactic(auto, using(slots::proofs::EffectLaws::has_room))]
pub fn set_times(s: &mut [u8], height: OwnHeight, time: OwnTime)
    requires { Exact s.old }
    ensures { s.new ≡ bytes_of (with_times (store_in s.old) height time) }
{
    put_u64(s, 8, height.0);
    put_u64(s, 16, time.0);
}

// The next channel number.
#[tactic(auto, using(slots::proofs::EffectLaws::has_room))]
pub fn set_next(s: &mut [u8], next: u64)
    requires { Exact s.old }
    ensures { s.new ≡ bytes_of (with_next (store_in s.old) next) }
{
    put_u64(s, 28, next);
}

// A channel end takes the slot of index `j`.
#[tactic(auto, using(slots::proofs::EffectLaws::has_room))]
pub fn set_channel(s: &mut [u8], j: usize, c: Channel)
    requires { Exact s.old × (j < channel_limit) }
    ensures { s.new ≡ bytes_of (with_channel_slot (store_in s.old) j (some c)) }
{
    put_channel(s, Layout::HEADER + Layout::SLOT * j, c);
}

// A packet record takes the slot of index `i`, and the next `m` slots take what stood one before them.
#[tactic(auto, using(slots::proofs::EffectLaws::has_room))]
pub fn insert_record(s: &mut [u8], i: usize, m: usize, r: Record)
    requires { Exact s.old × (i + m < length (store_in s.old).records) }
    ensures { s.new ≡
        bytes_of (with_records (store_in s.old) (inserted_at i m r (store_in s.old).records)) }
{
    let at = Layout::RECORDS_FROM + Layout::SLOT * i;
    shift_up(s, at, Layout::SLOT * m);
    put_record(s, at, r);
}

// `m` slots from index `i` on take what stood one behind them, and the one behind these becomes free.
#[tactic(auto, using(slots::proofs::EffectLaws::has_room))]
pub fn remove_record(s: &mut [u8], i: usize, m: usize)
    requires { Exact s.old × (i + m < length (store_in s.old).records) }
    ensures { s.new ≡
        bytes_of (with_records (store_in s.old) (removed_at i m (store_in s.old).records)) }
{
    let at = Layout::RECORDS_FROM + Layout::SLOT * i;
    let size = Layout::SLOT * m;
    shift_down(s, at, size);
    put_zeros(s, at + size, Layout::SLOT);
}
