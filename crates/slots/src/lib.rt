// What a store holds, and its slots of 64 bytes: the types of a channel end and of a packet record, read from lent
// bytes and stored there. specs/ says what they mean, and what a store says by its bytes.
#![tactic(auto)]

pub mod part; // a port and a channel, and timeouts
pub mod size; // how many bytes a store has
pub mod slot; // a channel end or a packet record in 64 bytes

use wire::DIGEST;

// A store's kind, its limits, where its tables start and the size of their records, as specs/Codes.antt, Limits.antt
// and Layout.antt have them.
#[derive(Clone, Copy)]
pub struct Layout;

impl Layout {
    pub const KIND: u16 = 0x0401;

    pub const CHANNELS: usize = 16;

    pub const RECORDS: usize = 512;

    pub const OUTPUT: usize = 106;

    pub const HEADER: usize = 64;

    pub const SLOT: usize = 64;

    pub const RECORDS_FROM: usize = Layout::HEADER + Layout::SLOT * Layout::CHANNELS;
}

// A height and a time of this ledger, and of the other one. None can stand where another is meant.
#[derive(Clone, Copy, Default, PartialEq, Eq, PartialOrd, Ord)]
pub struct OwnHeight(pub u64);

#[derive(Clone, Copy, Default, PartialEq, Eq, PartialOrd, Ord)]
pub struct OwnTime(pub u64);

#[derive(Clone, Copy, Default, PartialEq, Eq, PartialOrd, Ord)]
pub struct OtherHeight(pub u64);

#[derive(Clone, Copy, Default, PartialEq, Eq, PartialOrd, Ord)]
pub struct OtherTime(pub u64);

// A port and a channel of it.
#[derive(Clone, Copy, Default, PartialEq, Eq)]
pub struct PortChannel {
    pub port: u16,
    pub channel: u32,
}

// A packet's timeouts, 0 for none. Whose height and time they are depends on who asks: specs/Height.antt.
#[derive(Clone, Copy, Default, PartialEq, Eq)]
pub struct Timeout {
    pub height: u64,
    pub time: u64,
}

impl Timeout {
    pub const NONE: Timeout = Timeout { height: 0, time: 0 };
}

// The next sequence to send, to receive and to acknowledge.
#[derive(Clone, Copy, Default, PartialEq, Eq)]
pub struct Counters {
    pub send: u64,
    pub receive: u64,
    pub acknowledge: u64,
}

// The bytes of a version, as specs/Limits.antt has it.
pub const VERSION: usize = 24;

// A channel end. Its version has zeros behind it. An INIT end does not know its counterparty's channel: it is 0.
#[derive(Clone, Copy, Default, PartialEq, Eq)]
pub struct Channel {
    pub state: u8,
    pub order: u8,
    pub own: PortChannel,
    pub counterparty: PortChannel,
    pub next: Counters,
    pub version: [u8; VERSION],
}

// Its record's kind, its states and its orders, as specs/Codes.antt has them.
impl Channel {
    pub const KIND: u16 = 1;

    pub const INIT: u8 = 1;

    pub const TRY_OPEN: u8 = 2;

    pub const OPEN: u8 = 3;

    pub const CLOSED: u8 = 4;

    pub const ORDERED: u8 = 1;

    pub const UNORDERED: u8 = 2;

    pub const ALLOW_TIMEOUT: u8 = 3;
}

// A packet record.
#[derive(Clone, Copy, PartialEq, Eq)]
pub struct Record {
    pub kind: u16,
    pub channel: u32,
    pub sequence: u64,
    pub timeout: Timeout,
    pub digest: [u8; DIGEST],
}

// Its kinds, as specs/Codes.antt has them.
impl Record {
    pub const COMMITMENT: u16 = 1;

    pub const RECEIPT: u16 = 2;

    pub const ACKNOWLEDGEMENT: u16 = 3;

    pub const TIMEOUT_RECEIPT: u16 = 4;
}

// What a packet record is found by. Keys are ordered by channel, then kind, then sequence.
#[derive(Clone, Copy, PartialEq, Eq, PartialOrd, Ord)]
pub struct Key {
    pub channel: u32,
    pub kind: u16,
    pub sequence: u64,
}
