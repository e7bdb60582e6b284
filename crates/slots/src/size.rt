// How many bytes a store has.
ghost use Rattle.std.specs.Prelude.{◌≡◌};
ghost use Rattle.slots.specs.Fit.{size_fits};

use super::Layout;

// A header, 16 channel records, and 1 to 512 packet records.
#[tactic(auto, using(crate::proofs::FieldLaws::by_fields), unfolding(crate::specs::Fit::size_fits))]
pub fn size_fits(size: usize) -> bool
    ensures { result ≡ size_fits size }
{
    Layout::RECORDS_FROM + Layout::SLOT <= size
        && size <= Layout::RECORDS_FROM + Layout::SLOT * Layout::RECORDS
        && (size - Layout::RECORDS_FROM) % Layout::SLOT == 0
}
