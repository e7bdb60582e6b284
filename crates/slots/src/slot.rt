// The 64 bytes of a slot: a channel end, a packet record, or all zero where the slot is free.
ghost use Rattle.std.specs.Prelude.{◌≡◌, [], ◌∷◌, ◌++◌, ◌+◌, ◌≤◌, length};
ghost use Rattle.wire.specs.Bytes.{part, patch, little};
ghost use Rattle.slots.specs.Layout.{slot_size, channel_in, channel_bytes, record_in, record_bytes};

use super::part::{port_channel_at, put_port_channel, put_timeout, timeout_at};
use super::{Channel, Counters, PortChannel, Record};
use wire::{array_at, put_array, put_u16, put_u32, put_u64, u16_at, u32_at, u64_at};

// A channel end's own side leads with the channel, its counterparty's with the port.
#[tactic(auto, using(crate::proofs::SlotLaws::slot_fields))]
pub fn channel_at(s: &[u8], at: usize) -> Channel
    requires { at + slot_size ≤ length s.now }
    ensures { result ≡ channel_in (part at slot_size s.now) }
{
    Channel {
        state: s[at + 2],
        order: s[at + 3],
        own: PortChannel {
            port: u16_at(s, at + 8),
            channel: u32_at(s, at + 4),
        },
        counterparty: port_channel_at(s, at + 10),
        next: Counters {
            send: u64_at(s, at + 16),
            receive: u64_at(s, at + 24),
            acknowledge: u64_at(s, at + 32),
        },
        version: array_at(s, at + 40),
    }
}

#[tactic(auto, using(crate::proofs::SlotLaws::slot_fields))]
pub fn record_at(s: &[u8], at: usize) -> Record
    requires { at + slot_size ≤ length s.now }
    ensures { result ≡ record_in (part at slot_size s.now) }
{
    Record {
        kind: u16_at(s, at),
        channel: u32_at(s, at + 4),
        sequence: u64_at(s, at + 8),
        timeout: timeout_at(s, at + 16),
        digest: array_at(s, at + 32),
    }
}

// What a slot leads with: its kind, two bytes, and the number of a channel.
#[tactic(auto, using(crate::proofs::SlotLaws::slot_fields))]
fn put_head(s: &mut [u8], at: usize, kind: u16, first: u8, second: u8, channel: u32)
    requires { at + 8 ≤ length s.old }
    ensures { s.new ≡ patch at (little 2 kind ++ (first ∷ second ∷ []) ++ little 4 channel) s.old }
{
    put_u16(s, at, kind);
    s[at + 2] = first;
    s[at + 3] = second;
    put_u32(s, at + 4, channel);
}

#[tactic(auto, using(wire::proofs::PatchLaws::one_by_one))]
fn put_counters(s: &mut [u8], at: usize, c: Counters)
    requires { at + 24 ≤ length s.old }
    ensures { s.new ≡ patch at (little 8 c.send ++ little 8 c.receive ++ little 8 c.acknowledge) s.old }
{
    put_u64(s, at, c.send);
    put_u64(s, at + 8, c.receive);
    put_u64(s, at + 16, c.acknowledge);
}

#[tactic(auto, using(crate::proofs::SlotLaws::slot_fields))]
pub fn put_channel(s: &mut [u8], at: usize, c: Channel)
    requires { at + slot_size ≤ length s.old }
    ensures { s.new ≡ patch at (channel_bytes c) s.old }
{
    put_head(s, at, Channel::KIND, c.state, c.order, c.own.channel);
    put_u16(s, at + 8, c.own.port);
    put_port_channel(s, at + 10, c.counterparty);
    put_counters(s, at + 16, c.next);
    put_array(s, at + 40, c.version);
}

#[tactic(auto, using(crate::proofs::SlotLaws::slot_fields))]
pub fn put_record(s: &mut [u8], at: usize, r: Record)
    requires { at + slot_size ≤ length s.old }
    ensures { s.new ≡ patch at (record_bytes r) s.old }
{
    put_head(s, at, r.kind, 0, 0, r.channel);
    put_u64(s, at + 8, r.sequence);
    put_timeout(s, at + 16, r.timeout);
    put_array(s, at + 32, r.digest);
}
