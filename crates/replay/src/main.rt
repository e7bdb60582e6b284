// Reads a trace from standard input and writes its transcript to standard output. What each read does is the library's,
// `stream`: here bytes are only read and written.
#![tactic(auto)]

use input::end_within;
use std::io::{Print, Read, Stdin, Stdout};
use stream::{PIECE, ROOM, Reading, TEXT, after_read};

// Reads once, behind the bytes that are held.
fn read_once(
    mut stdin: Stdin,
    room: &mut [u8],
    piece: &mut [u8],
    text: &mut [u8],
    before: Reading,
) -> Reading {
    let held = end_within(piece, before.held);
    let got = stdin.read(&mut piece[held..]).ok();
    after_read(room, piece, text, held, got, before.replay)
}

fn write_text(stdout: Stdout, text: &[u8], size: usize) -> bool {
    let end = end_within(text, size);
    stdout.write_all(&text[..end]).is_ok()
}

// A proved loop has to end, and nothing says that the input does. So the loop has a number of turns that no run uses
// up.
fn replay(rt: HostRuntime, room: &mut [u8], piece: &mut [u8], text: &mut [u8]) {
    let mut reading = Reading::begin();
    for _ in 0..u64::MAX {
        if !reading.more {
            return;
        }
        reading = read_once(rt.stdin(), room, piece, text, reading);
        if !write_text(rt.stdout(), text, reading.size) {
            return;
        }
    }
}

fn main(rt: HostRuntime) {
    let mut room = [0u8; ROOM];
    let mut piece = [0u8; PIECE];
    let mut text = [0u8; TEXT];
    replay(rt, &mut room, &mut piece, &mut text);
}
