// The answer to a datagram on a fit store: the refusal of the first line of the table that applies, if one does.
// Lines 2 to 4 are for every kind, 5 and 7 for those about an end, 6 for those that need it OPEN. They stand here in
// their order.
#![tactic(auto)]

ghost use Rattle.std.specs.Prelude.{◌≡◌, true, false, [], ◌∷◌, ◌≤◌, length};
ghost use Rattle.std.proofs.Math.Option.{some};
ghost use Rattle.refusal.specs.Number.{answer_of};
ghost use Rattle.slots.specs.declared.Channel.{Channel};
ghost use Rattle.slots.specs.Layout.{records_from, store_in};
ghost use Rattle.slots.specs.Fit.{is_fit};
ghost use Rattle.datagram.specs.Kind.{send, receive, write, acknowledge, open_try, kind_of, kind_by, only, size_of};
ghost use Rattle.datagram.specs.Datagram.{kind_in, context_in, datagram_of, datagram_in, is_sound};
ghost use Rattle.rules.specs.Refusals.{first_given, makes_end, refusals, or_none, end_for};
ghost use Rattle.verdicts.specs.Lines.{number_behind};
ghost use Rattle.answer.specs.Known.{Known};

use closing::{close_confirm_row, close_init_row, time_out_on_close_row};
use datagram::Context;
use datagram::kind::Kind;
use datagram::place::version_place;
use datagram::read::{
    channel_in, context_in, counterparty_channel_in, counterparty_port_in, digest_in,
    end_verdict_in, order_in, packet_in, sequence_in, timeout_in, verdict_in,
};
use handshake::no_channel;
use heights::goes_back;
use refusal::Refusal;
use rows::{acknowledge_row, receive_row, send_row, time_out_row, write_row};
use slots::slot::channel_at;
use slots::{Channel, Layout, OwnHeight, OwnTime, PortChannel, VERSION};
use sound::sound_kind;
use steps::{open_acknowledge_row, open_confirm_row, open_init_row, open_try_row};
use tables::scan::find_channel;
use versions::{version_fits, version_from};
use wire::u64_at;

// Lines 2 and 3, behind a fit store (1): room for every record that is emitted, a sound datagram.
pub fn answer(store: &[u8], room: usize, datagram: &[u8]) -> Result<(), Refusal>
    requires { is_fit store.now ≡ true }
    ensures { answer_of result ≡
        first_given (datagram_in datagram.now).kind
        (refusals store.now room datagram.now) }
{
    if room < Layout::OUTPUT {
        return Err(Refusal::OutputShort);
    }
    let Some(kind) = sound_kind(datagram) else {
        return Err(Refusal::Malformed);
    };
    answer_sound(store, datagram, kind)
}

// An open init and an open try make an end, and are about none.
fn makes_end(kind: Kind) -> bool
    ensures { result ≡ makes_end (some (kind_by kind)) }
{
    matches!(kind, Kind::OpenInit | Kind::OpenTry)
}

// The kinds that need an OPEN end.
fn needs_open(kind: Kind) -> bool
    ensures { result ≡ only (send ∷ receive ∷ write ∷ acknowledge ∷ []) (some (kind_by kind)) }
{
    matches!(
        kind,
        Kind::Send | Kind::Receive | Kind::Write | Kind::Acknowledge
    )
}

// Line 4: the clock.
fn answer_sound(store: &[u8], datagram: &[u8], kind: Kind) -> Result<(), Refusal>
    requires { (is_fit store.now ≡ true) × (is_sound datagram.now ≡ true) ×
        (kind_of (kind_in datagram.now) ≡ some (kind_by kind)) }
    ensures { answer_of result ≡
        number_behind 3 (datagram_in datagram.now).kind (store_in store.now)
        (datagram_in datagram.now)
        (or_none (end_for (store_in store.now) (datagram_in datagram.now))) }
{
    let x = context_in(datagram);
    if goes_back(OwnHeight(u64_at(store, 8)), OwnTime(u64_at(store, 16)), x) {
        return Err(Refusal::GoesBack);
    }
    let count = (store.len() - Layout::RECORDS_FROM) / Layout::SLOT;
    if makes_end(kind) {
        return answer_by_kind(store, count, datagram, kind, x, no_channel());
    }
    answer_on(store, count, datagram, kind, x)
}

// Lines 5 to 7: the channel end that the datagram is about, in state OPEN for those that need it, and its port.
fn answer_on(
    store: &[u8],
    count: usize,
    datagram: &[u8],
    kind: Kind,
    x: Context,
) -> Result<(), Refusal>
    requires { Known store.now count datagram.now kind x × (makes_end (some (kind_by kind)) ≡ false) }
    ensures { answer_of result ≡
        number_behind 4 (some (kind_by kind)) (store_in store.now) (datagram_of (some (kind_by kind)) datagram.now)
        (or_none (end_for (store_in store.now) (datagram_of (some (kind_by kind)) datagram.now))) }
{
    let Some(j) = find_channel(store, channel_in(datagram, kind)) else {
        return Err(Refusal::NoChannel);
    };
    let c = channel_at(store, Layout::HEADER + Layout::SLOT * j);
    if needs_open(kind) & (c.state != Channel::OPEN) {
        return Err(Refusal::NotOpen);
    }
    if x.port != c.own.port {
        return Err(Refusal::NotOwner);
    }
    answer_by_kind(store, count, datagram, kind, x, c)
}

// Lines 8 to 27: those of the datagram's own kind.
fn answer_by_kind(
    store: &[u8],
    count: usize,
    d: &[u8],
    kind: Kind,
    x: Context,
    c: Channel,
) -> Result<(), Refusal>
    requires { Known store.now count d.now kind x }
    ensures { answer_of result ≡
        number_behind 7 (some (kind_by kind)) (store_in store.now) (datagram_of (some (kind_by kind)) d.now) c }
{
    match kind {
        Kind::Send => send_row(store, count, x, timeout_in(d), c),
        Kind::Receive => receive_row(store, count, x, packet_in(d), verdict_in(d, kind), c),
        Kind::Write => write_row(store, count, sequence_in(d), digest_in(d, kind), c),
        Kind::Acknowledge => {
            let p = packet_in(d);
            acknowledge_row(
                store,
                count,
                x,
                p,
                digest_in(d, kind),
                verdict_in(d, kind),
                c,
            )
        }
        Kind::TimeOut => time_out_row(store, count, packet_in(d), verdict_in(d, kind), c),
        Kind::OpenInit => open_init_row(store, version_fits(d, version_place(kind))),
        Kind::OpenTry => answer_try(store, d, x),
        Kind::OpenAcknowledge => {
            let channel = counterparty_channel_in(d, kind);
            open_acknowledge_row(x, channel, end_verdict_in(d, kind), c)
        }
        Kind::OpenConfirm => open_confirm_row(x, end_verdict_in(d, kind), c),
        Kind::CloseInit => close_init_row(x, c),
        Kind::CloseConfirm => close_confirm_row(x, end_verdict_in(d, kind), c),
        Kind::TimeOutOnClose => {
            let p = packet_in(d);
            time_out_on_close_row(
                store,
                count,
                p,
                end_verdict_in(d, kind),
                verdict_in(d, kind),
                c,
            )
        }
    }
}

// The row of an open try, on the parts that are read for it: its version where that fits.
fn answer_try(store: &[u8], datagram: &[u8], x: Context) -> Result<(), Refusal>
    requires { (records_from ≤ length store.now) × (size_of (some open_try) ≤ length datagram.now) ×
        (context_in datagram.now ≡ x) }
    ensures { (c : Channel) →
        answer_of result ≡
        number_behind 7 (some open_try) (store_in store.now)
        (datagram_of (some open_try) datagram.now) c }
{
    let order = order_in(datagram, Kind::OpenTry);
    let counterparty = PortChannel {
        port: counterparty_port_in(datagram),
        channel: counterparty_channel_in(datagram, Kind::OpenTry),
    };
    let v = end_verdict_in(datagram, Kind::OpenTry);
    let at = version_place(Kind::OpenTry);
    if !version_fits(datagram, at) {
        return open_try_row(store, x, order, counterparty, v, false, [0u8; VERSION]);
    }
    open_try_row(
        store,
        x,
        order,
        counterparty,
        v,
        true,
        version_from(datagram, at),
    )
}
