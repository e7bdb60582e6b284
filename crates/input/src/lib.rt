// The input as it is read, piece by piece: what a read gave, and the bytes of a piece that are held for the next read.
#![tactic(auto)]

ghost use Rattle.std.specs.Prelude.{◌≡◌, ◌++◌, ◌-◌, ◌≤◌, length, take, drop};
ghost use Rattle.wire.specs.Bytes.{part, patch};

// What a read gave: so many bytes, the end of the input, or a failure.
#[derive(Clone, Copy)]
pub enum Given {
    Read(usize),
    Ended,
    Failed,
}

// By the number that a read answers, and none where it failed.
impl From<Option<usize>> for Given {
    ghost use Rattle.input.specs.Given.{given_of};

    ghost from_gives = { λ got given. given ≡ given_of got };

    fn from(got: Option<usize>) -> Given {
        match got {
            Some(0) => Given::Ended,
            Some(read) => Given::Read(read),
            None => Given::Failed,
        }
    }
}

// The end of so many bytes at the front: no more than there are. That they are so many is said again for those who lend
// them.
pub fn end_within(bytes: &[u8], size: usize) -> usize
    ensures { (result ≤ length bytes.now) × (take result bytes.now ≡ take size bytes.now) ×
        (result ≡ length (take result bytes.now)) }
{
    size.min(bytes.len())
}

// The end of the bytes that were held and of so many that were read behind them.
pub fn end_behind(piece: &[u8], held: usize, read: usize) -> usize
    ensures { (result ≤ length piece.now) ×
        (take result piece.now ≡ take held piece.now ++ take read (drop held piece.now)) }
{
    held.saturating_add(read).min(piece.len())
}

// Moves the bytes from one place up to another to the front, and answers how many they are.
pub fn keep(piece: &mut [u8], from: usize, to: usize) -> usize
    ensures size { result ≡ length (part from (to - from) piece.old) }
    ensures piece { piece.new ≡ patch 0 (part from (to - from) piece.old) piece.old }
{
    let start = from.min(piece.len());
    let size = to.saturating_sub(from).min(piece.len() - start);
    piece.copy_within(start..start + size, 0);
    size
}
