// Whether a store is laid out exactly and each of its entries fits, in whatever order its packet records stand.
ghost use Rattle.std.specs.Prelude.{◌≡◌, ◌+◌, ◌<◌, length};
ghost use Rattle.wire.specs.Choice.{◌and◌};
ghost use Rattle.slots.specs.Layout.{records_from, size_for, record_bytes, record_in, store_in};
ghost use Rattle.slots.specs.Fit.{record_fits, entries_fit, is_laid_out};
ghost use Rattle.slots.specs.Scan.{slot_at, slots_from};
ghost use Rattle.front.specs.EverySlot.{every_slot, anywhere, slot_fits};

use entries::record_fits;
use front::exact::is_record_exact;
use front::front_fits;
use slots::Layout;
use slots::size::size_fits;
use slots::slot::record_at;
use wire::are_zero;

// Slot i of the packet records, wherever it stands among them.
fn record_slot_fits(s: &[u8], count: usize, i: usize) -> bool
    requires { (length s.now ≡ size_for count) × (i < count) }
    ensures { result ≡
        slot_fits record_bytes record_in (record_fits (store_in s.now)) anywhere
        (slot_at records_from s.now i)
        (slots_from records_from count s.now (i + 1)) }
{
    let at = Layout::RECORDS_FROM + Layout::SLOT * i;
    if are_zero(s, at, Layout::SLOT) {
        return true;
    }
    is_record_exact(s, at) & record_fits(s, count, record_at(s, at))
}

fn records_fit(s: &[u8], count: usize) -> bool
    requires { length s.now ≡ size_for count }
    ensures { result ≡
        every_slot (slot_fits record_bytes record_in (record_fits (store_in s.now)) anywhere)
        (slots_from records_from count s.now 0) }
{
    (0..count).all(|i| record_slot_fits(s, count, i))
}

// Laid out exactly as a store, and each entry fits, wherever it stands in its table.
pub fn entries_fit(s: &[u8]) -> bool
    ensures { result ≡ (is_laid_out s.now and entries_fit (store_in s.now)) }
{
    let size = s.len();
    if !size_fits(size) {
        return false;
    }
    let count = (size - Layout::RECORDS_FROM) / Layout::SLOT;
    front_fits(s, count) & records_fit(s, count)
}
