// What the replay program does with each read of its input: the bytes that are fed, the text that is to be written, the
// bytes that are kept for the next read, and whether there is to be one.
#![tactic(auto)]

ghost use Rattle.std.specs.Prelude.{◌≡◌, false, ◌+◌, ◌/◌, ◌≤◌, length, take, drop};
ghost use Rattle.wire.specs.Bytes.{patch};
ghost use Rattle.input.specs.Given.{given_of};
ghost use Rattle.text.specs.Lines.{Stores};
ghost use Rattle.transcript.specs.Transcript.{fed, line_room, last_line, last_within};
ghost use Rattle.stream.specs.Stream.{fed_on, taken_of, fresh_reading, Takes};

use input::{Given, end_behind, end_within, keep};
use slots::Layout;
use text::Lines;
use trace::{Phase, Replay};
use transcript::{LINE, feed};

// Room for the longest store, for a piece of the input, and for the lines of as many records as a piece can have: a
// record has at least 6 bytes. specs/Reads.antt states the last two.
pub const ROOM: usize = Layout::RECORDS_FROM + Layout::SLOT * Layout::RECORDS;

pub const PIECE: usize = 4096;

pub const TEXT: usize = 65536;

// How the reading of a trace stands: the replay, the bytes held at the front of the piece, the bytes of text that are
// to be written, and whether there is to be another read.
#[derive(Clone, Copy)]
pub struct Reading {
    pub replay: Replay,
    pub held: usize,
    pub size: usize,
    pub more: bool,
}

impl Reading {
    // Before the first read.
    pub fn begin() -> Reading
        ensures { result ≡ fresh_reading }
    {
        Reading {
            replay: Replay::start(),
            held: 0,
            size: 0,
            more: true,
        }
    }
}

// The last line, where so many bytes are left at the end of the input.
fn put_last_line(lines: &mut Lines, left: usize, replay: Replay)
    requires { lines.old.at + line_room ≤ length lines.old.text.now }
    ensures { Stores (last_line replay left) lines.old lines.new }
{
    match replay.phase {
        Phase::Before => lines.put_word_line(b"torn", 0),
        Phase::Running if left == 0 => lines.put_word_line(b"end", replay.count),
        Phase::Running => lines.put_word_line(b"torn", replay.count),
        Phase::Over => {}
    }
}

// The text that is nothing but the last line. Answers the bytes of text that were stored.
fn finish(text: &mut [u8], left: usize, replay: Replay) -> usize
    ensures size { result ≡ length (last_within (length text.old) replay left) }
    ensures text { text.new ≡ patch 0 (last_within (length text.old) replay left) text.old }
{
    if text.len() < LINE {
        return 0;
    }
    let mut lines = Lines { text, at: 0 };
    put_last_line(&mut lines, left, replay);
    lines.at
}

// Nothing more is read.
fn last(text: &mut [u8], left: usize, replay: Replay) -> Reading
    ensures reading { result ≡ record {
      replay = replay;
      held = 0;
      size = length (last_within (length text.old) replay left);
      more = false;
    } }
    ensures text { text.new ≡ patch 0 (last_within (length text.old) replay left) text.old }
{
    let size = finish(text, left, replay);
    Reading {
        replay,
        held: 0,
        size,
        more: false,
    }
}

// Feeds the bytes up to a place, and keeps what is no whole record.
fn feed_front(
    room: &mut [u8],
    piece: &mut [u8],
    text: &mut [u8],
    end: usize,
    replay: Replay,
) -> Reading
    requires { end ≤ length piece.old }
    ensures { Takes
        (fed_on (fed (length text.old / line_room) replay room.old (take end piece.old)))
        piece.old text.old result room.new piece.new text.new }
{
    let fed = feed(room, &piece[..end], text, replay);
    let held = keep(piece, fed.read, end);
    Reading {
        replay: fed.replay,
        held,
        size: fed.size,
        more: !fed.replay.phase.is_over(),
    }
}

// What a read does that gave so many bytes, or failed, where so many bytes of the piece were held and what it read stands
// behind them. A read that failed is not the end of the input: it counts as torn.
pub fn after_read(
    room: &mut [u8],
    piece: &mut [u8],
    text: &mut [u8],
    held: usize,
    got: Option<usize>,
    replay: Replay,
) -> Reading
    ensures { Takes
        (taken_of (length text.old) (given_of got) replay room.old (take held piece.old)
        (drop held piece.old))
        piece.old text.old result room.new piece.new text.new }
{
    match Given::from(got) {
        Given::Read(read) => {
            let end = end_behind(piece, held, read);
            feed_front(room, piece, text, end, replay)
        }
        Given::Ended => {
            let left = end_within(piece, held);
            last(text, left, replay)
        }
        Given::Failed => last(text, 1, replay),
    }
}
