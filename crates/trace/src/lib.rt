// A trace of one ledger: a first record that opens the store, then datagrams, each answered by a line.
#![tactic(auto)]

ghost use Rattle.std.specs.Prelude.{◌≡◌};
ghost use Rattle.trace.specs.Trace.{fresh_replay, is_over};
ghost use Rattle.trace.specs.Trace.{over as Replay·over};

mod trace_records; // what a record does

pub use trace_records::step;

// Whether the first record is still to come, datagrams are answered, or nothing more is read.
#[derive(Clone, Copy)]
pub enum Phase {
    Before,
    Running,
    Over,
}

impl Phase {
    pub fn is_over(self) -> bool
        ensures { result ≡ is_over self }
    {
        matches!(self, Phase::Over)
    }
}

// How the replay of a trace stands: its phase, the count of datagrams answered, and the length of the store at the
// front of its room.
#[derive(Clone, Copy)]
pub struct Replay {
    pub phase: Phase,
    pub count: u64,
    pub size: usize,
}

impl Replay {
    // Before its first record.
    pub fn start() -> Replay
        ensures { result ≡ fresh_replay }
    {
        Replay {
            phase: Phase::Before,
            count: 0,
            size: 0,
        }
    }

    pub fn over(count: u64, size: usize) -> Replay
        ensures { result ≡ Replay·over count size }
    {
        Replay {
            phase: Phase::Over,
            count,
            size,
        }
    }
}
