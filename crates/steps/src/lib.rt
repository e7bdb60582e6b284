// The answer to each step of the opening handshake, by the lines of the table that are for its kind, in their order: `Ok`
// where none applies. Each function takes the parts of a datagram that its lines look at, and promises the answer for
// all that have them.
#![tactic(auto)]

ghost use Rattle.std.specs.Prelude.{◌≡◌, true, ◌≤◌, length};
ghost use Rattle.std.proofs.Math.Option.{none, some};
ghost use Rattle.refusal.specs.Number.{answer_of};
ghost use Rattle.slots.specs.declared.Channel.{Channel};
ghost use Rattle.slots.specs.Version.{version_fits, padded};
ghost use Rattle.slots.specs.Layout.{Store, records_from, store_in};
ghost use Rattle.datagram.specs.Kind.{open_init, open_try, open_acknowledge, open_confirm};
ghost use Rattle.datagram.specs.Datagram.{Datagram};
ghost use Rattle.rules.specs.Handshake.{is_full};
ghost use Rattle.rules.specs.Refusals.{first_given};
ghost use Rattle.verdicts.specs.Lines.{number_behind};
ghost use Rattle.steps.specs.Moving.{moving_lines};

use datagram::{Context, EndVerdict};
use handshake::{end_difference, has_version, needed_init, needed_peer, needed_try_open};
use packets::lacks_connection;
use refusal::Refusal;
use slots::{Channel, PortChannel, VERSION};
use tables::scan::find_free_channel;
use wire::u64_at;

// The largest channel number, as slots' specs/Limits.antt has it.
const TOP_CHANNEL: u64 = 4294967295;

// 25: no free channel record, or no number left for a new end.
fn is_full(store: &[u8]) -> bool
    requires { records_from ≤ length store.now }
    ensures { result ≡ is_full (store_in store.now) }
{
    find_free_channel(store).is_none() || TOP_CHANNEL < u64_at(store, 28)
}

// Open init (6): lines 25 and 27.
#[tactic(auto, using(verdicts::proofs::RowLines::open_init_lines))]
pub fn open_init_row(store: &[u8], fits: bool) -> Result<(), Refusal>
    requires { records_from ≤ length store.now }
    ensures { (d : Datagram) (c : Channel) → version_fits d.version ≡ fits →
        answer_of result ≡ number_behind 7 (some open_init) (store_in store.now) d c }
{
    if is_full(store) {
        return Err(Refusal::NoFreeChannel);
    }
    if !fits {
        return Err(Refusal::WrongVersion);
    }
    Ok(())
}

// Open try (7): lines 8, 14, 25 and 27. Line 14 does not look at the version: one that does not fit may be any.
#[tactic(auto, using(verdicts::proofs::RowLines::open_try_lines, crate::proofs::StepLines::needed_try), unfolding(rules::specs::Handshake::needed_init))]
pub fn open_try_row(
    store: &[u8],
    x: Context,
    order: u8,
    counterparty: PortChannel,
    v: EndVerdict,
    fits: bool,
    version: [u8; VERSION],
) -> Result<(), Refusal>
    requires { records_from ≤ length store.now }
    ensures { (d : Datagram) (c : Channel) → d.context ≡ x → d.order ≡ order → d.counterparty ≡ counterparty →
        d.end_verdict ≡ v → version_fits d.version ≡ fits → (fits ≡ true → padded d.version ≡ version) →
        answer_of result ≡ number_behind 7 (some open_try) (store_in store.now) d c }
{
    if lacks_connection(x) {
        return Err(Refusal::NoConnection);
    }
    let needed = needed_init(x.port, order, counterparty, version);
    end_difference(v, needed)?;
    if is_full(store) {
        return Err(Refusal::NoFreeChannel);
    }
    if !fits {
        return Err(Refusal::WrongVersion);
    }
    if !has_version(v, needed) {
        return Err(Refusal::WrongVersion);
    }
    Ok(())
}

// Lines 8, 14, 26 and 27 of a step that moves an end to another state, by the record that it needs and its prior state.
#[tactic(auto, using(crate::proofs::StepLines::moving_choices))]
pub fn moving_row(
    connected: bool,
    v: EndVerdict,
    needed: Channel,
    prior: u8,
    c: Channel,
) -> Result<(), Refusal>
    ensures { answer_of result ≡ first_given none (moving_lines connected v needed prior c) }
{
    if !connected {
        return Err(Refusal::NoConnection);
    }
    end_difference(v, needed)?;
    if c.state != prior {
        return Err(Refusal::WrongState);
    }
    if !has_version(v, needed) {
        return Err(Refusal::WrongVersion);
    }
    Ok(())
}

// Open acknowledge (8): of an INIT end, which learns its counterparty's channel.
#[tactic(auto, using(crate::proofs::StepLines::open_acknowledge_lines), unfolding(rules::specs::Handshake::needed_try_open, rules::specs::Handshake::answering))]
pub fn open_acknowledge_row(
    x: Context,
    channel: u32,
    v: EndVerdict,
    c: Channel,
) -> Result<(), Refusal>
    ensures { (s : Store) (d : Datagram) → d.context ≡ x → d.counterparty.channel ≡ channel → d.end_verdict ≡ v →
        answer_of result ≡ number_behind 7 (some open_acknowledge) s d c }
{
    moving_row(
        x.connected,
        v,
        needed_try_open(c, channel),
        Channel::INIT,
        c,
    )
}

// Open confirm (9): of a TRYOPEN end.
#[tactic(auto, using(crate::proofs::StepLines::open_confirm_lines))]
pub fn open_confirm_row(x: Context, v: EndVerdict, c: Channel) -> Result<(), Refusal>
    ensures { (s : Store) (d : Datagram) → d.context ≡ x → d.end_verdict ≡ v →
        answer_of result ≡ number_behind 7 (some open_confirm) s d c }
{
    moving_row(
        x.connected,
        v,
        needed_peer(Channel::OPEN, c),
        Channel::TRY_OPEN,
        c,
    )
}
