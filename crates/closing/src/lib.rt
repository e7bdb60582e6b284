// The answer to a datagram that closes an end, and to a time-out by the other end's close, by the lines of the table
// that are for its kind, in their order: `Ok` where none applies. Each function takes the parts of a datagram that its
// lines look at, and promises the answer for all that have them.
#![tactic(auto)]

ghost use Rattle.std.specs.Prelude.{◌≡◌};
ghost use Rattle.std.proofs.Math.Option.{some};
ghost use Rattle.refusal.specs.Number.{answer_of};
ghost use Rattle.slots.specs.Layout.{Store, store_in};
ghost use Rattle.slots.specs.Scan.{RecordsInOrder};
ghost use Rattle.datagram.specs.Kind.{close_init, close_confirm, time_out_on_close};
ghost use Rattle.datagram.specs.Datagram.{Datagram};
ghost use Rattle.verdicts.specs.Lines.{number_behind};

use datagram::{Context, EndVerdict, Packet, Verdict};
use handshake::{end_difference, has_version, needed_peer};
use packets::{fits_source, is_committed, lacks_connection};
use refusal::Refusal;
use rows::timed_out_row;
use slots::Channel;
use steps::moving_row;
use verdicts::{absence_difference, block_difference};

// Close init (10): lines 8 and 26, of an OPEN end.
#[tactic(auto, using(verdicts::proofs::RowLines::close_init_lines))]
pub fn close_init_row(x: Context, c: Channel) -> Result<(), Refusal>
    ensures { (s : Store) (d : Datagram) → d.context ≡ x → answer_of result ≡ number_behind 7 (some close_init) s d c }
{
    if lacks_connection(x) {
        return Err(Refusal::NoConnection);
    }
    if c.state != Channel::OPEN {
        return Err(Refusal::WrongState);
    }
    Ok(())
}

// Close confirm (11): of an OPEN end, whose counterparty is CLOSED.
#[tactic(auto, using(crate::proofs::ClosingLines::close_confirm_lines))]
pub fn close_confirm_row(x: Context, v: EndVerdict, c: Channel) -> Result<(), Refusal>
    ensures { (s : Store) (d : Datagram) → d.context ≡ x → d.end_verdict ≡ v →
        answer_of result ≡ number_behind 7 (some close_confirm) s d c }
{
    moving_row(
        x.connected,
        v,
        needed_peer(Channel::CLOSED, c),
        Channel::OPEN,
        c,
    )
}

// Time out on close (12): lines 9 and 13, then those of `closed_row`.
#[tactic(auto, using(verdicts::proofs::RowLines::on_close_lines))]
pub fn time_out_on_close_row(
    store: &[u8],
    count: usize,
    p: Packet,
    v: EndVerdict,
    w: Verdict,
    c: Channel,
) -> Result<(), Refusal>
    requires { RecordsInOrder store.now count }
    ensures { (d : Datagram) → d.packet ≡ p → d.end_verdict ≡ v → d.verdict ≡ w →
        answer_of result ≡ number_behind 7 (some time_out_on_close) (store_in store.now) d c }
{
    if !fits_source(c, p) {
        return Err(Refusal::WrongEnd);
    }
    if !is_committed(store, count, p) {
        return Err(Refusal::NoCommitment);
    }
    closed_row(p, v, w, c)
}

// Lines 14, 15, 19 and 27 of a time-out on close: the counterparty is CLOSED, and the packet was not received, both at
// one block.
#[tactic(auto, using(verdicts::proofs::RowLines::closed_lines, refusal::proofs::NumberLaws::number_above))]
fn closed_row(p: Packet, v: EndVerdict, w: Verdict, c: Channel) -> Result<(), Refusal>
    ensures { (s : Store) (d : Datagram) → d.packet ≡ p → d.end_verdict ≡ v → d.verdict ≡ w →
        answer_of result ≡ number_behind 13 (some time_out_on_close) s d c }
{
    let needed = needed_peer(Channel::CLOSED, c);
    end_difference(v, needed)?;
    absence_difference(true, c, p, w)?;
    block_difference(v.block, w.block)?;
    timed_out_row(p, w, c)?;
    if !has_version(v, needed) {
        return Err(Refusal::WrongVersion);
    }
    Ok(())
}
