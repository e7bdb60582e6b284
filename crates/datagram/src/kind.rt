// The kinds of datagrams. specs/Kind.antt has their numbers.
ghost use Rattle.datagram.specs.Kind.{Decodes};

#[derive(Clone, Copy, PartialEq, Eq)]
pub enum Kind {
    Send,
    Receive,
    Write,
    Acknowledge,
    TimeOut,
    OpenInit,
    OpenTry,
    OpenAcknowledge,
    OpenConfirm,
    CloseInit,
    CloseConfirm,
    TimeOutOnClose,
}

// A number that no kind has.
#[derive(Clone, Copy)]
pub struct UnknownKind(pub u16);

impl TryFrom<u16> for Kind {
    type Error = UnknownKind;

    ghost try_from_gives = { Decodes };

    #[tactic(auto, unfolding(wire::specs::Choice::with_number))]
    fn try_from(number: u16) -> Result<Self, UnknownKind> {
        match number {
            1 => Ok(Kind::Send),
            2 => Ok(Kind::Receive),
            3 => Ok(Kind::Write),
            4 => Ok(Kind::Acknowledge),
            5 => Ok(Kind::TimeOut),
            6 => Ok(Kind::OpenInit),
            7 => Ok(Kind::OpenTry),
            8 => Ok(Kind::OpenAcknowledge),
            9 => Ok(Kind::OpenConfirm),
            10 => Ok(Kind::CloseInit),
            11 => Ok(Kind::CloseConfirm),
            12 => Ok(Kind::TimeOutOnClose),
            _ => Err(UnknownKind(number)),
        }
    }
}
