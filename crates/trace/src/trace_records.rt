// What a record does, by how the replay stands. The store stands at the front of its room.
ghost use Rattle.std.specs.Prelude.{◌≡◌, ◌+◌, ◌≤◌, length, take};
ghost use Rattle.refusal.specs.Number.{answer_of};
ghost use Rattle.openings.specs.Maker.{make_told, make_store};
ghost use Rattle.emit.specs.Output.{at_front};
ghost use Rattle.rules.specs.Call.{told_of, call_told, call_store};
ghost use Rattle.text.specs.Lines.{Stores};
ghost use Rattle.trace.specs.Trace.{is_opening, fresh_output, opened_text, opened_replay, opens, answers, stepped};
ghost use Rattle.trace.specs.Stepped.{Leaves};

use super::{Phase, Replay};
use handler::handle;
use input::end_within;
use refusal::{Refusal, answer_of};
use store::Store;
use text::Lines;
use wire::u16_at;

// The kind of a trace's first record.
const FIRST: u16 = 0x0020;

fn make_store(room: &mut [u8], size: usize, openings: &[u8]) -> Result<(), Refusal>
    ensures told { answer_of result ≡ make_told (take size room.old) openings.now }
    ensures room { room.new ≡
        at_front (make_store (take size room.old) openings.now) room.old }
{
    let end = end_within(room, size);
    Store::make(&mut room[..end], openings)
}

fn answer_datagram(room: &mut [u8], size: usize, datagram: &[u8]) -> Result<u32, Refusal>
    ensures told { told_of result ≡ call_told (take size room.old) fresh_output datagram.now }
    ensures room { room.new ≡
        at_front (call_store (take size room.old) fresh_output datagram.now) room.old }
{
    let end = end_within(room, size);
    let mut output = [0u8; Store::OUTPUT];
    handle(&mut room[..end], &mut output, datagram)
}

// Length, kind and P are there, and the kind is that of an opening.
fn is_opening(bytes: &[u8]) -> bool
    ensures { result ≡ is_opening bytes.now }
{
    8 <= bytes.len() && u16_at(bytes, 4) == FIRST
}

// The lines of an opening, by what the maker told. An opening refused ends the replay.
fn told_opening(lines: &mut Lines, told: Result<(), Refusal>, size: usize) -> Replay
    requires { lines.old.at + 64 ≤ length lines.old.text.now }
    ensures replay { result ≡ opened_replay (answer_of told) size }
    ensures lines { Stores (opened_text (answer_of told)) lines.old lines.new }
{
    lines.put_word_line(b"open", u64::from(answer_of(told)));
    if told.is_ok() {
        return Replay {
            phase: Phase::Running,
            count: 0,
            size,
        };
    }
    lines.put_word_line(b"end", 0);
    Replay::over(0, size)
}

// The first record makes the store. One that is no opening counts as torn.
fn open_store(room: &mut [u8], first: &[u8], lines: &mut Lines) -> Replay
    requires { lines.old.at + 64 ≤ length lines.old.text.now }
    ensures { Leaves (opens room.old first.now) lines.old lines.new result room.new }
{
    if !is_opening(first) {
        lines.put_word_line(b"torn", 0);
        return Replay::over(0, 0);
    }
    let size = Store::length(usize::from(u16_at(first, 6)));
    let told = make_store(room, size, &first[8..]);
    told_opening(lines, told, size)
}

// Each datagram gets a line, refused or not.
fn answer_line(room: &mut [u8], datagram: &[u8], lines: &mut Lines, replay: Replay) -> Replay
    requires { lines.old.at + 64 ≤ length lines.old.text.now }
    ensures { Leaves (answers replay room.old datagram.now) lines.old lines.new result room.new }
{
    let count = replay.count.wrapping_add(1);
    let number = answer_of(answer_datagram(room, replay.size, datagram));
    lines.put_number_line(count, u64::from(number));
    Replay {
        phase: Phase::Running,
        count,
        size: replay.size,
    }
}

// One record.
pub fn step(room: &mut [u8], bytes: &[u8], lines: &mut Lines, replay: Replay) -> Replay
    requires { lines.old.at + 64 ≤ length lines.old.text.now }
    ensures { Leaves (stepped replay room.old bytes.now) lines.old lines.new result room.new }
{
    match replay.phase {
        Phase::Before => open_store(room, bytes, lines),
        Phase::Running => answer_line(room, bytes, lines, replay),
        Phase::Over => replay,
    }
}
