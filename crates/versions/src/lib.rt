// Versions: whether the bytes behind a datagram's fixed part are one, and whether the 24 bytes of a channel record are
// one with zeros behind it. Both ask how many bytes stand before the first zero byte.
#![tactic(auto)]

ghost use Rattle.std.specs.Prelude.{◌≡◌, true, ◌+◌, ◌≤◌, length, drop};
ghost use Rattle.wire.specs.Bytes.{part};
ghost use Rattle.slots.specs.Limits.{version_size};
ghost use Rattle.slots.specs.Version.{version_fits, padded, is_padded};
ghost use Rattle.versions.specs.Leading.{before_zero};

use slots::VERSION;
use wire::{are_zero, put_part};

// How many of `size` bytes stand before the first zero byte.
fn before_zero(s: &[u8], from: usize, size: usize) -> usize
    requires { from + size ≤ length s.now }
    ensures { result ≡ before_zero (part from size s.now) }
{
    s[from..from + size]
        .iter()
        .position(|&byte| byte == 0)
        .unwrap_or(size)
}

// Only zeros stand behind the first one. Most ends have no version, so that is asked first.
pub fn is_padded(s: &[u8], at: usize) -> bool
    requires { at + version_size ≤ length s.now }
    ensures { result ≡ is_padded (part at version_size s.now) }
{
    if are_zero(s, at, VERSION) {
        return true;
    }
    let size = before_zero(s, at, VERSION);
    are_zero(s, at + size, VERSION - size)
}

// The bytes from `at` on: at most 24, none of them zero.
pub fn version_fits(d: &[u8], at: usize) -> bool
    requires { at ≤ length d.now }
    ensures { result ≡ version_fits (drop at d.now) }
{
    let size = d.len() - at;
    if VERSION < size {
        return false;
    }
    before_zero(d, at, size) == size
}

// The bytes from `at` on, with zeros behind them.
pub fn version_from(d: &[u8], at: usize) -> [u8; VERSION]
    requires { (at ≤ length d.now) × (version_fits (drop at d.now) ≡ true) }
    ensures { result ≡ padded (drop at d.now) }
{
    let mut v = [0u8; VERSION];
    put_part(&mut v, 0, d, at, d.len() - at);
    v
}
