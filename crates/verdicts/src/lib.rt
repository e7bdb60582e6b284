// Line 14, a verdict against what is needed of it: the refusal for the part that differs first, `Ok` where none does.
// And of line 15, what a verdict says of the packet's turn.
#![tactic(auto)]

ghost use Rattle.std.specs.Prelude.{◌≡◌};
ghost use Rattle.refusal.specs.Number.{answer_of};
ghost use Rattle.wire.specs.Choice.{pick};
ghost use Rattle.rules.specs.Verdict.{first_difference, block_difference};
ghost use Rattle.rules.specs.Refusals.{commitment_difference, acknowledgement_difference};
ghost use Rattle.rules.specs.Refusals.{claims_next, absence_difference};
ghost use Rattle.rules.specs.Refusals.{claims_taken};

use datagram::{Block, Packet, Verdict};
use heights::{no_timeout, same_timeout};
use ordering::absence_claim;
use refusal::{Refusal, VerdictPart};
use slots::{Channel, PortChannel, Timeout};

#[tactic(auto, unfolding(rules::specs::Verdict::first_difference))]
fn first_difference(
    v: Verdict,
    claim: u16,
    about: PortChannel,
    sequence: u64,
    timeout: Timeout,
    digest: [u8; 32],
) -> Result<(), Refusal>
    ensures { answer_of result ≡ first_difference v claim about sequence timeout digest }
{
    if v.claim != claim {
        return Err(Refusal::Verdict(VerdictPart::Claim));
    }
    if v.about.port != about.port {
        return Err(Refusal::Verdict(VerdictPart::Port));
    }
    if v.about.channel != about.channel {
        return Err(Refusal::Verdict(VerdictPart::Channel));
    }
    if v.sequence != sequence {
        return Err(Refusal::Verdict(VerdictPart::Sequence));
    }
    if !same_timeout(v.timeout, timeout) {
        return Err(Refusal::Verdict(VerdictPart::Timeouts));
    }
    if v.digest != digest {
        return Err(Refusal::Verdict(VerdictPart::Digest));
    }
    Ok(())
}

// For 2: the commitment at the packet's source.
#[tactic(auto, unfolding(rules::specs::Refusals::commitment_difference))]
pub fn commitment_difference(p: Packet, v: Verdict) -> Result<(), Refusal>
    ensures { answer_of result ≡ commitment_difference p v }
{
    let claim = Verdict::COMMITMENT_PRESENT;
    let source = p.source;
    let timeout = p.timeout;
    let digest = p.digest;
    first_difference(v, claim, source, p.sequence, timeout, digest)
}

// For 4: the acknowledgement at the packet's destination.
#[tactic(auto, unfolding(rules::specs::Refusals::acknowledgement_difference))]
pub fn acknowledgement_difference(p: Packet, digest: [u8; 32], v: Verdict) -> Result<(), Refusal>
    ensures { answer_of result ≡ acknowledgement_difference p digest v }
{
    let claim = Verdict::ACKNOWLEDGEMENT_PRESENT;
    let destination = p.destination;
    first_difference(v, claim, destination, p.sequence, no_timeout(), digest)
}

// Next receive may be claimed of any sequence; a receipt and a timeout receipt are the packet's own.
fn absence_sequence(v: Verdict, sequence: u64) -> u64
    ensures { result ≡ pick (claims_next v) v.sequence sequence }
{
    if v.claim == Verdict::NEXT_RECEIVE_IS {
        return v.sequence;
    }
    sequence
}

// For 5 and, by the other end's close, for 12: at the packet's destination, that it was not received.
#[tactic(auto, unfolding(rules::specs::Refusals::absence_difference))]
pub fn absence_difference(on_close: bool, c: Channel, p: Packet, v: Verdict) -> Result<(), Refusal>
    ensures { answer_of result ≡ absence_difference on_close c p v }
{
    let claim = absence_claim(on_close, c, v.claim);
    let destination = p.destination;
    let sequence = absence_sequence(v, p.sequence);
    first_difference(v, claim, destination, sequence, no_timeout(), [0u8; 32])
}

// 15, for 5 and 12: the next receive that the verdict claims is above the sequence, so the packet was taken.
#[tactic(auto, using(slots::proofs::FieldLaws::by_fields), unfolding(rules::specs::Refusals::claims_taken))]
pub fn claims_taken(v: Verdict, sequence: u64) -> bool
    ensures { result ≡ claims_taken v sequence }
{
    (v.claim == Verdict::NEXT_RECEIVE_IS) & (sequence < v.sequence)
}

// For 12: the blocks of two verdicts are one.
#[tactic(auto, using(slots::proofs::FieldLaws::by_fields), unfolding(rules::specs::Verdict::block_difference))]
pub fn block_difference(a: Block, b: Block) -> Result<(), Refusal>
    ensures { answer_of result ≡ block_difference a b }
{
    if a != b {
        return Err(Refusal::Verdict(VerdictPart::Blocks));
    }
    Ok(())
}
