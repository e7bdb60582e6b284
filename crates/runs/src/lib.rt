// Runs of packet records: neighbours of one kind and channel, whose sequences rise. So what a record is held against is
// looked up once for its run, and of a limit only the last sequence is asked.
#![tactic(auto)]

ghost use Rattle.std.specs.Prelude.{◌≡◌, not, ◌+◌, ◌*◌, ◌-◌, ◌≤◌, ◌<◌, ltb, eqb, length};
ghost use Rattle.wire.specs.Choice.{◌and◌, pick};
ghost use Rattle.wire.specs.Bytes.{part, are_zero};
ghost use Rattle.slots.specs.Codes.{acknowledgement_kind, timeout_receipt_kind};
ghost use Rattle.slots.specs.Layout.{records_from, slot_size, size_for};
ghost use Rattle.runs.specs.Each.{each};
ghost use Rattle.runs.specs.Run.{record_at, key_at, plain_size, RunEnd, OwnRun, Passed, Beside, Reached};
ghost use Rattle.runs.specs.Run.{has_before, has_companion, fits_beside};

use slots::{Channel, Layout, Record};
use tables::ordering::{may_have_receipt, may_have_timeout_receipt};
use wire::{are_zero, u16_at, u32_at, u64_at};

// Eight bytes are zero, and sixteen, as two words that are both looked at.
fn is_zero_word(s: &[u8], at: usize) -> bool
    requires { at + 8 ≤ length s.now }
    ensures { result ≡ are_zero (part at 8 s.now) }
{
    u64_at(s, at) == 0
}

fn are_zero_two_words(s: &[u8], at: usize) -> bool
    requires { at + 16 ≤ length s.now }
    ensures { result ≡ are_zero (part at 16 s.now) }
{
    is_zero_word(s, at) & is_zero_word(s, at + 8)
}

// The bytes behind a key, 0, 16 or 48 of them as its kind has it, are zero. They are taken as words, all of which are
// looked at: so the compiler joins the tests.
fn is_plain(s: &[u8], at: usize, size: usize) -> bool
    requires { at + size ≤ length s.now }
    ensures { result ≡ are_zero (part at size s.now) }
{
    if size == 16 {
        return are_zero_two_words(s, at);
    }
    if size == 48 {
        return are_zero_two_words(s, at)
            & are_zero_two_words(s, at + 16)
            & are_zero_two_words(s, at + 32);
    }
    are_zero(s, at, size)
}

// Where the run that starts at slot i ends, with so many zero bytes behind each key. The first eight bytes of a record
// are its kind, two zero bytes and its channel: they are compared as one number. Where not even slot i passes, it ends
// there. The loop goes by the place alone, so that the processor has one number less to keep. It is the place behind the
// slot: so each read stands at an offset from it, and is as many bytes of code in one register as in another. At the
// place of the slot itself the first read is a byte shorter in some registers, the tests and jumps behind it then lie
// across lines of code, and some processors decode such a jump anew in each turn.
fn run_end(s: &[u8], count: usize, i: usize, size: usize) -> usize
    requires { ((length s.now ≡ size_for count) × (i < count)) × (16 + size ≤ slot_size) }
    ensures { RunEnd s.now count size i result }
{
    let first = Layout::RECORDS_FROM + Layout::SLOT * i;
    let word = u64_at(s, first);
    let end = Layout::RECORDS_FROM + Layout::SLOT * count;
    let mut last: u64 = 0;
    let mut behind = first + Layout::SLOT;
    while behind <= end {
        let at = behind - Layout::SLOT;
        if u64_at(s, at) != word {
            return (at - Layout::RECORDS_FROM) / Layout::SLOT;
        }
        let next = u64_at(s, at + 8);
        if next <= last {
            return (at - Layout::RECORDS_FROM) / Layout::SLOT;
        }
        if !is_plain(s, at + 16, size) {
            return (at - Layout::RECORDS_FROM) / Layout::SLOT;
        }
        last = next;
        behind += Layout::SLOT;
    }
    (behind - Layout::SLOT - Layout::RECORDS_FROM) / Layout::SLOT
}

// The same by the kind of its first record: a loop for each number of zero bytes.
pub fn own_run_end(s: &[u8], count: usize, i: usize) -> usize
    requires { (length s.now ≡ size_for count) × (i < count) }
    ensures { RunEnd s.now count (plain_size (key_at s.now i).kind) i result }
{
    match u16_at(s, Layout::RECORDS_FROM + Layout::SLOT * i) {
        Record::COMMITMENT => run_end(s, count, i, 0),
        Record::ACKNOWLEDGEMENT => run_end(s, count, i, 16),
        _ => run_end(s, count, i, 48),
    }
}

// Where the records of this kind begin that the run from slot i on is held against: with the run before it, from p on,
// where that is of this kind and of its channel, and else there are none.
fn companions_from(s: &[u8], p: usize, i: usize, kind: u16) -> usize
    requires { (size_for (i + 1) ≤ length s.now) × (p ≤ i) }
    ensures { result ≡
        pick
        (ltb p i and eqb (key_at s.now p).kind kind and
        eqb (key_at s.now p).channel (key_at s.now i).channel) p i }
{
    let before = Layout::RECORDS_FROM + Layout::SLOT * p;
    let own = Layout::RECORDS_FROM + Layout::SLOT * i;
    if (p < i) & (u16_at(s, before) == kind) & (u32_at(s, before + 4) == u32_at(s, own + 4)) {
        return p;
    }
    i
}

// The first slot from q on, before slot i, whose sequence is not below this one.
fn pass_below(s: &[u8], q: usize, i: usize, sequence: u64) -> usize
    requires { (size_for i ≤ length s.now) × (q ≤ i) }
    ensures { Reached s.now q i sequence result }
{
    for k in q..i {
        if sequence <= u64_at(s, Layout::RECORDS_FROM + Layout::SLOT * k + 8) {
            return k;
        }
    }
    i
}

// Slot m stands before slot i and has this sequence.
fn is_there(s: &[u8], m: usize, i: usize, sequence: u64) -> bool
    requires { (size_for i ≤ length s.now) × (m ≤ i) }
    ensures { result ≡ (ltb m i and eqb (key_at s.now m).sequence sequence) }
{
    if m < i {
        return u64_at(s, Layout::RECORDS_FROM + Layout::SLOT * m + 8) == sequence;
    }
    false
}

// Each record of the run from i to e has its companion, where that is wanted, else none has. The index of the
// companions only moves forward, since both runs rise.
fn are_beside(s: &[u8], q: usize, i: usize, e: usize, kind: u16, wanted: bool) -> bool
    requires { (size_for e ≤ length s.now) × Beside s.now kind q i e }
    ensures { result ≡
        each (λ k. pick wanted (has_before s.now kind k) (not (has_before s.now kind k))) i
        (e - i) }
{
    let mut m = q;
    for k in i..e {
        let sequence = u64_at(s, Layout::RECORDS_FROM + Layout::SLOT * k + 8);
        m = pass_below(s, m, i, sequence);
        if is_there(s, m, i, sequence) != wanted {
            return false;
        }
    }
    true
}

// On an unordered channel each has its receipt, else all are below next receive, as the last one is.
fn acknowledgements_fit(s: &[u8], p: usize, i: usize, e: usize, c: Channel) -> bool
    requires { ((size_for e ≤ length s.now) × (i < e) × OwnRun s.now i e × Passed s.now p i) ×
        ((key_at s.now i).kind ≡ acknowledgement_kind) }
    ensures { result ≡ each (λ k. fits_beside (has_companion s.now k) (record_at s.now k) c) i (e - i) }
{
    if may_have_receipt(c) {
        let q = companions_from(s, p, i, Record::RECEIPT);
        return are_beside(s, q, i, e, Record::RECEIPT, true);
    }
    u64_at(s, Layout::RECORDS_FROM + Layout::SLOT * (e - 1) + 8) < c.next.receive
}

// Where timeouts are allowed, below next receive; none beside its acknowledgement.
fn timeout_receipts_fit(s: &[u8], p: usize, i: usize, e: usize, c: Channel) -> bool
    requires { ((size_for e ≤ length s.now) × (i < e) × OwnRun s.now i e × Passed s.now p i) ×
        ((key_at s.now i).kind ≡ timeout_receipt_kind) }
    ensures { result ≡ each (λ k. fits_beside (has_companion s.now k) (record_at s.now k) c) i (e - i) }
{
    let last = u64_at(s, Layout::RECORDS_FROM + Layout::SLOT * (e - 1) + 8);
    let q = companions_from(s, p, i, Record::ACKNOWLEDGEMENT);
    may_have_timeout_receipt(c, last) & are_beside(s, q, i, e, Record::ACKNOWLEDGEMENT, false)
}

// The records of the run from i to e on their channel end, by kind. The run before it starts at p.
pub fn run_fits(s: &[u8], p: usize, i: usize, e: usize, c: Channel) -> bool
    requires { (size_for e ≤ length s.now) × (i < e) × OwnRun s.now i e × Passed s.now p i }
    ensures { result ≡ each (λ k. fits_beside (has_companion s.now k) (record_at s.now k) c) i (e - i) }
{
    match u16_at(s, Layout::RECORDS_FROM + Layout::SLOT * i) {
        Record::COMMITMENT => u64_at(s, Layout::RECORDS_FROM + Layout::SLOT * (e - 1) + 8)
            < c.next.send,
        Record::RECEIPT => may_have_receipt(c),
        Record::ACKNOWLEDGEMENT => acknowledgements_fit(s, p, i, e, c),
        Record::TIMEOUT_RECEIPT => timeout_receipts_fit(s, p, i, e, c),
        _ => false,
    }
}
