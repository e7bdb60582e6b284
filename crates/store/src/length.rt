// How many bytes a store has.
ghost use Rattle.std.specs.Prelude.{◌≡◌};
ghost use Rattle.store.specs.Length.{length_for};

use super::Store;
use slots::Layout;

impl Store {
    // The length of a store with so many packet records, or 0 where no store has so many.
    pub fn length(records: usize) -> usize
        ensures { result ≡ length_for records }
    {
        if (1 <= records) & (records <= Store::RECORDS) {
            return Layout::RECORDS_FROM + Layout::SLOT * records;
        }
        0
    }
}
