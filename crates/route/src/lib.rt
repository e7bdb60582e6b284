// The functions that a host links, under their C names. A slice is passed as a pointer and a length. Each promises what
// the function below it promises, for every input. include/route.h tells C programs the same.
#![tactic(auto)]

ghost use Rattle.std.specs.Prelude.{◌≡◌};
ghost use Rattle.store.specs.Length.{length_for};
ghost use Rattle.openings.specs.Maker.{make_told, make_store};
ghost use Rattle.store.specs.Convert.{convert_told, convert_store};
ghost use Rattle.rules.specs.Call.{call_told, call_store, call_output};

use handler::handle;
use refusal::answer_of;
use store::Store;

// One call. Answers its number, and leaves the length of the emitted record in `size`: 0 for a refusal.
#[unsafe(no_mangle)]
pub extern "C" fn route_handle(
    store: &mut [u8],
    output: &mut [u8],
    datagram: &[u8],
    size: &mut u32,
) -> u8
    ensures number { result ≡ (call_told store.old output.old datagram.now).number }
    ensures size { size.new ≡ (call_told store.old output.old datagram.now).size }
    ensures store { store.new ≡ call_store store.old output.old datagram.now }
    ensures output { output.new ≡ call_output store.old output.old datagram.now }
{
    match handle(store, output, datagram) {
        Ok(emitted) => {
            *size = emitted;
            0
        }
        Err(refusal) => {
            *size = 0;
            refusal.number()
        }
    }
}

// Makes a fresh store of the whole slice. Answers 0, or why not: 21 to 24.
#[unsafe(no_mangle)]
pub extern "C" fn route_make_store(store: &mut [u8], openings: &[u8]) -> u8
    ensures told { result ≡ make_told store.old openings.now }
    ensures left { store.new ≡ make_store store.old openings.now }
{
    answer_of(Store::make(store, openings))
}

// Puts the packet records of a store in order. Answers 0, or 1 where it is not fit but for the order.
#[unsafe(no_mangle)]
pub extern "C" fn route_convert_store(store: &mut [u8]) -> u8
    ensures told { result ≡ convert_told store.old }
    ensures left { store.new ≡ convert_store store.old }
{
    answer_of(Store::convert(store))
}

// The length of a store with so many packet records, or 0 where no store has so many.
#[unsafe(no_mangle)]
pub extern "C" fn route_store_length(records: usize) -> usize
    ensures { result ≡ length_for records }
{
    Store::length(records)
}
