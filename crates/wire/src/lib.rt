// Numbers, digests and frames in lent bytes. What they mean is in specs/: `field` and `part` of a list of bytes, `patch`
// for what a store of bytes leaves. A number is read and stored as the array of its bytes, whatever its width: the
// compiler makes one load or one store of it.
#![tactic(auto)]

ghost use Rattle.std.specs.Prelude.{◌≡◌, ◌++◌, ◌+◌, ◌≤◌, length, replicate};
ghost use Rattle.wire.specs.Bytes.{part, field, little, patch, same, are_zero, digest_size};
ghost use Rattle.wire.specs.Frame.{frame_size, frame_in};

// A digest, and a frame's length and kind, in bytes.
pub const DIGEST: usize = 32;

pub const FRAME: usize = 6;

// So many bytes from a place, as an array by value: a number's, a digest's, a version's.
#[tactic(auto, unfolding(crate::specs::Bytes::part))]
pub fn array_at<const N: usize>(s: &[u8], at: usize) -> [u8; N]
    requires { at + N ≤ length s.now }
    ensures { result ≡ part at N s.now }
{
    let mut a = [0u8; N];
    a.copy_from_slice(&s[at..at + N]);
    a
}

#[tactic(auto, using(crate::proofs::ArrayLaws::over_part), unfolding(crate::specs::Bytes::part))]
pub fn put_array<const N: usize>(s: &mut [u8], at: usize, a: [u8; N])
    requires { at + N ≤ length s.old }
    ensures { s.new ≡ patch at a.entry s.old }
{
    s[at..at + N].copy_from_slice(&a);
}

#[tactic(auto, using(crate::proofs::PartLaws::one_byte))]
pub fn u8_at(s: &[u8], at: usize) -> u8
    requires { at + 1 ≤ length s.now }
    ensures { result ≡ field at 1 s.now }
{
    s[at]
}

pub fn u16_at(s: &[u8], at: usize) -> u16
    requires { at + 2 ≤ length s.now }
    ensures { result ≡ field at 2 s.now }
{
    u16::from_le_bytes(array_at(s, at))
}

pub fn u32_at(s: &[u8], at: usize) -> u32
    requires { at + 4 ≤ length s.now }
    ensures { result ≡ field at 4 s.now }
{
    u32::from_le_bytes(array_at(s, at))
}

pub fn u64_at(s: &[u8], at: usize) -> u64
    requires { at + 8 ≤ length s.now }
    ensures { result ≡ field at 8 s.now }
{
    u64::from_le_bytes(array_at(s, at))
}

#[tactic(auto, unfolding(crate::specs::Bytes::little, crate::specs::Bytes::patch))]
pub fn put_u8(s: &mut [u8], at: usize, v: u8)
    requires { at + 1 ≤ length s.old }
    ensures { s.new ≡ patch at (little 1 v) s.old }
{
    s[at] = v;
}

pub fn put_u16(s: &mut [u8], at: usize, v: u16)
    requires { at + 2 ≤ length s.old }
    ensures { s.new ≡ patch at (little 2 v) s.old }
{
    put_array(s, at, v.to_le_bytes());
}

pub fn put_u32(s: &mut [u8], at: usize, v: u32)
    requires { at + 4 ≤ length s.old }
    ensures { s.new ≡ patch at (little 4 v) s.old }
{
    put_array(s, at, v.to_le_bytes());
}

pub fn put_u64(s: &mut [u8], at: usize, v: u64)
    requires { at + 8 ≤ length s.old }
    ensures { s.new ≡ patch at (little 8 v) s.old }
{
    put_array(s, at, v.to_le_bytes());
}

// A free record is all zero.
#[tactic(auto, using(crate::proofs::ArrayLaws::over_part), unfolding(crate::specs::Bytes::part))]
pub fn put_zeros(s: &mut [u8], from: usize, size: usize)
    requires { from + size ≤ length s.old }
    ensures { s.new ≡ patch from (replicate size 0) s.old }
{
    s[from..from + size].fill(0);
}

// Whether `size` bytes are zero. Most sizes are whole words of eight bytes; the rest goes by bytes.
pub fn are_zero(s: &[u8], from: usize, size: usize) -> bool
    requires { from + size ≤ length s.now }
    ensures { result ≡ are_zero (part from size s.now) }
{
    let mut words = s[from..from + size].chunks_exact(8);
    let rest = words.remainder();
    words.all(|word| u64_at(word, 0) == 0) && rest.iter().all(|&byte| byte == 0)
}

// `size` bytes of one slice, stored over those of another.
#[tactic(auto, using(crate::proofs::ArrayLaws::over_part), unfolding(crate::specs::Bytes::part))]
pub fn put_part(s: &mut [u8], at: usize, from: &[u8], start: usize, size: usize)
    requires { (at + size ≤ length s.old) × (start + size ≤ length from.now) }
    ensures { s.new ≡ patch at (part start size from.now) s.old }
{
    s[at..at + size].copy_from_slice(&from[start..start + size]);
}

// What a framed record says of itself.
#[derive(Clone, Copy)]
pub struct Frame {
    pub kind: u16,
    pub length: u32,
}

// The frame of a slice that is a whole record, and none where it is another, as where its length field is. That field
// is compared as a usize: a slice can be longer than any length field says.
pub fn frame_in(s: &[u8]) -> Option<Frame>
    ensures { result ≡ frame_in s.now }
{
    if s.len() < FRAME {
        return None;
    }
    let length = u32_at(s, 0);
    if length as usize != s.len() {
        return None;
    }
    Some(Frame {
        kind: u16_at(s, 4),
        length,
    })
}

// A record's frame at the front of a slice.
#[tactic(auto, using(crate::proofs::PatchLaws::one_by_one))]
pub fn put_frame(s: &mut [u8], size: u32, kind: u16)
    requires { frame_size ≤ length s.old }
    ensures { s.new ≡ patch 0 (little 4 size ++ little 2 kind) s.old }
{
    put_u32(s, 0, size);
    put_u16(s, 4, kind);
}
