// Datagrams and the records that are handed out, in lent bytes. Their types; specs/ says what they mean.
#![tactic(auto)]

pub mod kind; // the kinds
pub mod place; // where the parts of a body lie
pub mod read; // the parts, read by value

use slots::{Channel, OtherHeight, OtherTime, OwnHeight, OwnTime, PortChannel, Timeout};

// A block of the other ledger.
#[derive(Clone, Copy, PartialEq, Eq)]
pub struct Block {
    pub height: OtherHeight,
    pub time: OtherTime,
}

// What the host says of the call: this ledger's height and time, the latest block of the other ledger that the client
// knows, the caller's port, and whether the connection is open.
#[derive(Clone, Copy, PartialEq, Eq)]
pub struct Context {
    pub height: OwnHeight,
    pub time: OwnTime,
    pub client: Block,
    pub port: u16,
    pub connected: bool,
}

#[derive(Clone, Copy, PartialEq, Eq)]
pub struct Packet {
    pub sequence: u64,
    pub timeout: Timeout,
    pub source: PortChannel,
    pub destination: PortChannel,
    pub digest: [u8; 32],
}

// What the host's light client found of the other ledger, at a block there.
#[derive(Clone, Copy, PartialEq, Eq)]
pub struct Verdict {
    pub claim: u16,
    pub block: Block,
    pub about: PortChannel,
    pub sequence: u64,
    pub timeout: Timeout,
    pub digest: [u8; 32],
}

// Its claims, as specs/Claim.antt has their numbers.
impl Verdict {
    pub const COMMITMENT_PRESENT: u16 = 1;

    pub const ACKNOWLEDGEMENT_PRESENT: u16 = 2;

    pub const RECEIPT_ABSENT: u16 = 3;

    // next receive equals the verdict's sequence
    pub const NEXT_RECEIVE_IS: u16 = 4;

    pub const TIMEOUT_RECEIPT_PRESENT: u16 = 6;
}

// What it found of a channel end there.
#[derive(Clone, Copy, PartialEq, Eq)]
pub struct EndVerdict {
    pub claim: u16,
    pub block: Block,
    pub kind: u16,
    pub end: Channel,
}

// Its claim: the end's record, of this kind, is this one once its counters are zero.
impl EndVerdict {
    pub const END_IS: u16 = 5;
}
