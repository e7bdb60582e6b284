// One record at a time. A reader holds the input and a place in it; it tells what stands there and hands out the
// record.
#![tactic(auto)]

ghost use Rattle.std.specs.Prelude.{◌≡◌, drop};
ghost use Rattle.wire.specs.Bytes.{part};
ghost use Rattle.reader.specs.Front.{front_of};

use input::end_within;
use wire::u32_at;

// The least and the greatest length of a record.
const LEAST: usize = 6;

const GREATEST: usize = 1024;

// What stands at the front of an input: a whole record of so many bytes, a torn one, or too little to tell.
#[derive(Clone, Copy)]
pub enum Front {
    Whole(usize),
    Torn,
    Short,
}

#[derive(Clone, Copy)]
pub struct Reader<'a> {
    pub src: &'a [u8],
    pub at: usize,
}

impl<'a> Reader<'a> {
    // At the start of an input.
    pub fn new(src: &'a [u8]) -> Reader<'a>
        ensures { (result.src ≡ src.entry) × (result.at ≡ 0) }
    {
        Reader { src, at: 0 }
    }

    // Moves on to a place.
    pub fn moved(self, at: usize) -> Reader<'a>
        ensures { (result.src ≡ self.entry.src) × (result.at ≡ at) }
    {
        Reader { src: self.src, at }
    }

    // What stands at the reader's place. A place behind the end has nothing left.
    pub fn next(self) -> Front
        ensures { result ≡ front_of (drop self.entry.at self.entry.src.now) }
    {
        let left = self.src.len().saturating_sub(self.at);
        if left < 4 {
            return Front::Short;
        }
        let size = u32_at(self.src, self.at) as usize;
        if !(LEAST..=GREATEST).contains(&size) {
            return Front::Torn;
        }
        if left < size {
            return Front::Short;
        }
        Front::Whole(size)
    }

    // Hands out the record at the reader's place, which has so many bytes: a part of the input, or as much as is left.
    pub fn bytes(self, size: usize) -> &'a [u8]
        ensures { result.now ≡ part self.entry.at size self.entry.src.now }
    {
        let from = end_within(self.src, self.at);
        let end = end_within(self.src, from.saturating_add(size));
        &self.src[from..end]
    }
}
