// What a packet record is found by, and the order of these.
ghost use Rattle.std.specs.Prelude.{◌≡◌, ◌+◌, ◌≤◌, length};
ghost use Rattle.wire.specs.Bytes.{part};
ghost use Rattle.slots.specs.Table.{key_of, has_key, is_before};
ghost use Rattle.slots.specs.Layout.{slot_size, record_in, slot_in};
ghost use Rattle.slots.specs.Scan.{holds};

use slots::{Key, Layout};
use wire::{are_zero, u16_at, u32_at, u64_at};

#[tactic(auto, using(slots::proofs::FieldLaws::by_fields, slots::proofs::SlotLaws::key_read))]
pub fn key_at(s: &[u8], at: usize) -> Key
    requires { at + slot_size ≤ length s.now }
    ensures { result ≡ key_of (record_in (part at slot_size s.now)) }
{
    Key {
        channel: u32_at(s, at + 4),
        kind: u16_at(s, at),
        sequence: u64_at(s, at + 8),
    }
}

// A free slot has no key. The sequence is what most records differ in, so it is compared first.
#[tactic(auto, using(slots::proofs::FieldLaws::by_fields, slots::proofs::SlotTestLaws::held))]
pub(crate) fn has_key(s: &[u8], at: usize, k: Key) -> bool
    requires { at + slot_size ≤ length s.now }
    ensures { result ≡ holds (has_key k) (slot_in record_in (part at slot_size s.now)) }
{
    let own = key_at(s, at);
    if own.sequence != k.sequence {
        return false;
    }
    own == k && !are_zero(s, at, Layout::SLOT)
}

// A free slot stands behind every key.
#[tactic(auto, using(slots::proofs::FieldLaws::by_fields, slots::proofs::SlotTestLaws::held))]
pub fn stands_before(s: &[u8], at: usize, k: Key) -> bool
    requires { at + slot_size ≤ length s.now }
    ensures { result ≡ holds (λ x. is_before (key_of x) k) (slot_in record_in (part at slot_size s.now)) }
{
    key_at(s, at) < k && !are_zero(s, at, Layout::SLOT)
}
