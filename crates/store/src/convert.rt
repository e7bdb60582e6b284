// The converter of a store whose packet records are out of order. specs/Convert.antt says what it answers and what it
// leaves. All tests come before the first store of a byte, so a refusal changes nothing.
ghost use Rattle.std.specs.Prelude.{◌≡◌};
ghost use Rattle.refusal.specs.Number.{answer_of};
ghost use Rattle.store.specs.Convert.{convert_told, convert_store};

use super::Store;
use refusal::Refusal;
use sorting::{is_fit_any_order, sort_records};

impl Store {
    // Puts the packet records of a store in order, or refuses it where it is not fit but for the order.
    #[tactic(auto, unfolding(crate::specs::Convert::convert_told, crate::specs::Convert::convert_store))]
    pub fn convert(store: &mut [u8]) -> Result<(), Refusal>
        ensures told { answer_of result ≡ convert_told store.old }
        ensures left { store.new ≡ convert_store store.old }
    {
        if !is_fit_any_order(store) {
            return Err(Refusal::StoreNotFit);
        }
        sort_records(store);
        Ok(())
    }
}
