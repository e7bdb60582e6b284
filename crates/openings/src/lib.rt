// A list of openings, read: whether each fits, whether their channel numbers differ, and the channel ends that they
// open.
#![tactic(auto)]

ghost use Rattle.std.specs.Prelude.{◌≡◌, ◌+◌, ◌%◌, ◌≤◌, eqb, length};
ghost use Rattle.wire.specs.Choice.{◌and◌, is_some};
ghost use Rattle.wire.specs.Bytes.{part};
ghost use Rattle.slots.specs.Table.{distinct, same_number, channel_at};
ghost use Rattle.openings.specs.Opening.{opening_size, openings_in, opening_fits, all_openings_fit, opening_of};
ghost use Rattle.openings.specs.Opening.{ends_of, ends_from};

use slots::part::port_channel_at;
use slots::{Channel, Counters, VERSION};
use wire::{u8_at, u16_at, u32_at};

// An opening, in bytes, and its kind.
pub const OPENING: usize = 20;

const KIND: u16 = 0x0010;

// The opening from `at` on: length, kind, order and zero byte.
fn opening_fits(openings: &[u8], at: usize) -> bool
    requires { at + opening_size ≤ length openings.now }
    ensures { result ≡ opening_fits (part at opening_size openings.now) }
{
    let order = u8_at(openings, at + 18);
    (u32_at(openings, at) as usize == OPENING)
        & (u16_at(openings, at + 4) == KIND)
        & ((Channel::ORDERED <= order) & (order <= Channel::ALLOW_TIMEOUT))
        & (u8_at(openings, at + 19) == 0)
}

pub fn openings_fit(openings: &[u8]) -> bool
    ensures { result ≡ eqb (length openings.now % opening_size) 0 and all_openings_fit (openings_in openings.now) }
{
    openings.len() % OPENING == 0
        && (0..openings.len() / OPENING).all(|i| opening_fits(openings, OPENING * i))
}

// Whether an opening has this channel number, from the opening of index `from` on.
fn has_number(openings: &[u8], from: usize, channel: u32) -> bool
    ensures { result ≡ is_some (channel_at channel (ends_from openings.now from)) }
{
    (from..openings.len() / OPENING).any(|i| u32_at(openings, OPENING * i + 8) == channel)
}

pub fn numbers_distinct(openings: &[u8]) -> bool
    ensures { result ≡ distinct same_number (ends_of openings.now) }
{
    (0..openings.len() / OPENING).all(|i| !has_number(
        openings,
        i + 1,
        u32_at(openings, OPENING * i + 8),
    ))
}

// An OPEN end with counters 1 and no version, as the opening from `at` on says.
pub fn opening_at(openings: &[u8], at: usize) -> Channel
    requires { at + opening_size ≤ length openings.now }
    ensures { result ≡ opening_of (part at opening_size openings.now) }
{
    Channel {
        state: Channel::OPEN,
        order: u8_at(openings, at + 18),
        own: port_channel_at(openings, at + 6),
        counterparty: port_channel_at(openings, at + 12),
        next: Counters {
            send: 1,
            receive: 1,
            acknowledge: 1,
        },
        version: [0; VERSION],
    }
}
