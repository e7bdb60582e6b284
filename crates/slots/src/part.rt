// Parts that several records have: an end, its port before its channel, and a packet's timeouts.
ghost use Rattle.std.specs.Prelude.{◌≡◌, ◌++◌, ◌+◌, ◌≤◌, length};
ghost use Rattle.wire.specs.Bytes.{little, patch};
ghost use Rattle.slots.specs.Part.{port_channel_in, timeout_in};

use super::{PortChannel, Timeout};
use wire::{put_u16, put_u32, put_u64, u16_at, u32_at, u64_at};

pub fn port_channel_at(s: &[u8], at: usize) -> PortChannel
    requires { at + 6 ≤ length s.now }
    ensures { result ≡ port_channel_in at s.now }
{
    PortChannel {
        port: u16_at(s, at),
        channel: u32_at(s, at + 2),
    }
}

pub fn timeout_at(s: &[u8], at: usize) -> Timeout
    requires { at + 16 ≤ length s.now }
    ensures { result ≡ timeout_in at s.now }
{
    Timeout {
        height: u64_at(s, at),
        time: u64_at(s, at + 8),
    }
}

#[tactic(auto, using(wire::proofs::PatchLaws::one_by_one))]
pub fn put_port_channel(s: &mut [u8], at: usize, p: PortChannel)
    requires { at + 6 ≤ length s.old }
    ensures { s.new ≡ patch at (little 2 p.port ++ little 4 p.channel) s.old }
{
    put_u16(s, at, p.port);
    put_u32(s, at + 2, p.channel);
}

#[tactic(auto, using(wire::proofs::PatchLaws::one_by_one))]
pub fn put_timeout(s: &mut [u8], at: usize, t: Timeout)
    requires { at + 16 ≤ length s.old }
    ensures { s.new ≡ patch at (little 8 t.height ++ little 8 t.time) s.old }
{
    put_u64(s, at, t.height);
    put_u64(s, at + 8, t.time);
}
