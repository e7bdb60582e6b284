// The text that the replay program prints for its input. A piece of the input is fed record by record, and what is left
// of it goes before the next piece.
#![tactic(auto)]

ghost use Rattle.std.specs.Prelude.{◌+◌, ◌/◌, ◌≤◌, length, drop};
ghost use Rattle.transcript.specs.Transcript.{fed, line_room};
ghost use Rattle.transcript.specs.Feeds.{Feeds};

use reader::{Front, Reader};
use text::Lines;
use trace::{Replay, step};

// Room for the lines of one record.
pub const LINE: usize = 64;

// How far a piece was fed: how the replay stands, the bytes that were read, and the bytes of text that were stored.
#[derive(Clone, Copy)]
pub struct Progress {
    pub replay: Replay,
    pub read: usize,
    pub size: usize,
}

// At most one record, behind what was read and stored.
fn turn(room: &mut [u8], input: &[u8], text: &mut [u8], p: Progress) -> Progress
    requires { (p.read ≤ length input.now) × (p.size + line_room ≤ length text.old) }
    ensures { Feeds (fed 1 p.replay room.old (drop p.read input.now)) p.size
        input.now text.old result room.new text.new }
{
    let Progress { replay, read, size } = p;
    if replay.phase.is_over() {
        return p;
    }
    let reader = Reader::new(input).moved(read);
    let mut lines = Lines { text, at: size };
    let (replay, read) = match reader.next() {
        Front::Whole(length) => {
            let left = step(room, reader.bytes(length), &mut lines, replay);
            (left, read + length)
        }
        Front::Torn => {
            lines.put_word_line(b"torn", replay.count);
            (Replay::over(replay.count, replay.size), read)
        }
        Front::Short => (replay, read),
    };
    Progress {
        replay,
        read,
        size: lines.at,
    }
}

// As many whole records as there are, and as the text has room for.
pub fn feed(room: &mut [u8], input: &[u8], text: &mut [u8], replay: Replay) -> Progress
    ensures { Feeds (fed (length text.old / line_room) replay room.old input.now) 0
        input.now text.old result room.new text.new }
{
    let lines = text.len() / LINE;
    let mut p = Progress {
        replay,
        read: 0,
        size: 0,
    };
    for _ in 0..lines {
        let q = turn(room, input, text, p);
        if q.read == p.read {
            return q;
        }
        p = q;
    }
    p
}
