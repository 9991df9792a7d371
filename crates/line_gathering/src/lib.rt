// A line is gathered byte by byte. A line longer than any frame is no frame whatever follows, so no more than its front is kept,
// in memory with its length beside it: there is no heap.
#![tactic(auto)]

ghost use Rattle.std.specs.Prelude.{[], ◌∷◌};
ghost use Rattle.frames.specs.Lines as l;

// The bytes of the longest frame, and one more.
pub const LONGEST_FRAME: usize = 20;

pub const KEPT: usize = LONGEST_FRAME + 1;

// Where the block is read next, how long the front is then, and whether it is a whole line. A part of a line has the same two numbers,
// so the flag stands beside them.
#[derive(Clone, Copy, Debug, PartialEq, Eq)]
pub struct Gathered {
    pub at: usize,
    pub used: usize,
    pub ended: bool,
}

// How long the front is: all of its memory at most.
pub fn within(front: &[u8], used: usize) -> usize
    ensures { l.Keeps front.now used [] front.now result }
{
    used.min(front.len())
}

// Puts a byte after the front, if there is room for it; how long the front is then.
pub fn push(front: &mut [u8], used: usize, byte: u8) -> usize
    ensures { l.Keeps front.old used (byte ∷ []) front.new result }
{
    if used < front.len() {
        front[used] = byte;
        used + 1
    } else {
        front.len()
    }
}

// Takes bytes of the block from the place `at` on, until a line ended or the block is over.
pub fn gather(front: &mut [u8], used: usize, block: &[u8], at: usize) -> Gathered
    ensures { l.Gathers front.old used block.now at front.new result.used result.at result.ended }
{
    let mut len = within(front, used);
    for next in at..block.len() {
        let byte = block[next];
        let feed = byte == b'\n';
        if feed {
            return Gathered {
                at: next + 1,
                used: len,
                ended: true,
            };
        }
        len = push(front, len, byte);
    }
    Gathered {
        at: block.len(),
        used: len,
        ended: false,
    }
}
