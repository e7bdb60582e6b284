// The handler: answers a datagram and carries it out.
#![tactic(auto)]

ghost use Rattle.std.specs.Prelude.{◌≡◌};
ghost use Rattle.rules.specs.Call.{told_of, call_told, call_store, call_output};

use acceptance::accept;
use answer::answer;
use fit::used_if_fit;
use refusal::Refusal;

// One call. Answers the length of the record that it emitted, or why the call is refused. The store is checked (1) and
// the other lines are asked; a refusal has answered before the first byte is written. How many packet records are in
// use is known from the check.
pub fn handle(store: &mut [u8], output: &mut [u8], datagram: &[u8]) -> Result<u32, Refusal>
    ensures told { told_of result ≡ call_told store.old output.old datagram.now }
    ensures store { store.new ≡ call_store store.old output.old datagram.now }
    ensures output { output.new ≡ call_output store.old output.old datagram.now }
{
    let Some(used) = used_if_fit(store) else {
        return Err(Refusal::StoreNotFit);
    };
    answer(store, output.len(), datagram)?;
    Ok(accept(store, output, datagram, used))
}
