// Why a call was refused: the refusals by name, and the number of each, which is the library's answer.
#![tactic(auto)]

ghost use Rattle.std.specs.Prelude.{◌≡◌};
ghost use Rattle.refusal.specs.Number.{part_number, refusal_number, answer_of};

// The part of a verdict that is not the one needed. Of an end verdict the claim and the record are told here.
#[derive(Clone, Copy, Debug, PartialEq, Eq)]
pub enum VerdictPart {
    Claim,
    Port,
    Channel,
    Sequence,
    Timeouts,
    // The digest, or anything in the record of an end verdict but its version.
    Digest,
    // The two verdicts of a time-out on close are of different blocks.
    Blocks,
}

impl VerdictPart {
    pub fn number(self) -> u8
        ensures { result ≡ part_number self }
    {
        match self {
            VerdictPart::Claim => 140,
            VerdictPart::Port => 141,
            VerdictPart::Channel => 142,
            VerdictPart::Sequence => 143,
            VerdictPart::Timeouts => 144,
            VerdictPart::Digest => 145,
            VerdictPart::Blocks => 146,
        }
    }
}

// A refusal. A refused call has changed nothing. docs/ANSWERS.md says when each is given.
#[derive(Clone, Copy, Debug, PartialEq, Eq)]
pub enum Refusal {
    StoreNotFit,
    OutputShort,
    Malformed,
    GoesBack,
    NoChannel,
    NotOpen,
    NotOwner,
    NoConnection,
    WrongEnd,
    NoTimeout,
    TimeoutPassed,
    TimeoutNotPassed,
    NoCommitment,
    Verdict(VerdictPart),
    OutOfOrder,
    AlreadyThere,
    NotReceived,
    EmptyAcknowledgement,
    CounterAtEnd,
    NoFreeRecord,
    LengthUnfit,
    OpeningsMalformed,
    TooManyOpenings,
    ChannelTwice,
    NoFreeChannel,
    WrongState,
    WrongVersion,
}

impl Refusal {
    // Its number: 1 to 13, 15 to 27, or 140 to 146.
    pub fn number(self) -> u8
        ensures { result ≡ refusal_number self }
    {
        match self {
            Refusal::StoreNotFit => 1,
            Refusal::OutputShort => 2,
            Refusal::Malformed => 3,
            Refusal::GoesBack => 4,
            Refusal::NoChannel => 5,
            Refusal::NotOpen => 6,
            Refusal::NotOwner => 7,
            Refusal::NoConnection => 8,
            Refusal::WrongEnd => 9,
            Refusal::NoTimeout => 10,
            Refusal::TimeoutPassed => 11,
            Refusal::TimeoutNotPassed => 12,
            Refusal::NoCommitment => 13,
            Refusal::Verdict(part) => part.number(),
            Refusal::OutOfOrder => 15,
            Refusal::AlreadyThere => 16,
            Refusal::NotReceived => 17,
            Refusal::EmptyAcknowledgement => 18,
            Refusal::CounterAtEnd => 19,
            Refusal::NoFreeRecord => 20,
            Refusal::LengthUnfit => 21,
            Refusal::OpeningsMalformed => 22,
            Refusal::TooManyOpenings => 23,
            Refusal::ChannelTwice => 24,
            Refusal::NoFreeChannel => 25,
            Refusal::WrongState => 26,
            Refusal::WrongVersion => 27,
        }
    }
}

// The number that the library answers: 0 for acceptance, else the refusal's.
pub fn answer_of<T: Copy>(told: Result<T, Refusal>) -> u8
    ensures { result ≡ answer_of told }
{
    match told {
        Ok(_) => 0,
        Err(refusal) => refusal.number(),
    }
}
