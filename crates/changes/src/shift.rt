// Bytes of a lent store that move by a slot: up, where a record is put in, and down, where one is taken out. They are
// copied within the range that they and the slot beside them take: the compiler makes one call of `memmove` of it.
ghost use Rattle.std.specs.Prelude.{◌≡◌, ◌+◌, ◌≤◌, length};
ghost use Rattle.wire.specs.Bytes.{part, patch};
ghost use Rattle.slots.specs.Layout.{slot_size};

use slots::Layout;

// `size` bytes from a place on move up by a slot.
pub(crate) fn shift_up(s: &mut [u8], from: usize, size: usize)
    requires { from + slot_size + size ≤ length s.old }
    ensures { s.new ≡ patch (from + slot_size) (part from size s.old) s.old }
{
    s[from..from + Layout::SLOT + size].copy_within(..size, Layout::SLOT);
}

// `size` bytes that begin a slot behind a place move down to it.
pub(crate) fn shift_down(s: &mut [u8], to: usize, size: usize)
    requires { to + slot_size + size ≤ length s.old }
    ensures { s.new ≡ patch to (part (to + slot_size) size s.old) s.old }
{
    s[to..to + Layout::SLOT + size].copy_within(Layout::SLOT.., 0);
}
