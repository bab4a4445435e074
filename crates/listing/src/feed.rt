// The step that takes a block of input: it holds the line read so far, writes the line of each word that ends in the block, and
// stops where the output has no room for one more line.
ghost use Rattle.std.specs.Prelude.{◌≡◌, ◌+◌, ◌≤◌, length};
ghost use Rattle.writing.specs.Put.{put};
ghost use Rattle.listing.specs.Feed.{last_out};
ghost use Rattle.lines.specs.Room.{line_room};
ghost use Rattle.listing.specs.Fed.{standing, feed_byte_of, feeding};

use crate::held::Held;
use lines::listed;
use refusals::refusal;

// The bytes held of a line that is not ended.
pub use crate::held::HELD;

// Room for any output line: four times the limit, and fifteen bytes.
const LINE: usize = 4 * refusal::LIMIT + 15;

// How much of the block was taken, and how many bytes of the output are written.
#[derive(Clone, Copy)]
pub struct Progress {
    pub used: usize,
    pub written: usize,
}

// One byte of the input: a line feed ends the line held, and any other byte is held. The place in the output after what was written.
fn feed_byte(folded: bool, b: u8, held: &mut Held, out: &mut [u8], at: usize) -> usize
    requires { at + line_room ≤ length out.old }
    ensures value { result ≡ (feed_byte_of folded b (standing 0 held.old out.old at)).written }
    ensures held_after { held.new ≡ (feed_byte_of folded b (standing 0 held.old out.old at)).held }
    ensures out_after { out.new ≡ (feed_byte_of folded b (standing 0 held.old out.old at)).out }
{
    if b == 0x0A {
        let end = listed::put_listed(out, at, held.as_slice(), folded);
        held.clear();
        return end;
    }
    held.hold(b);
    at
}

// The block from place `from` on, to the front of the output, as long as there is room for a whole line: how far that is, and what is
// written. The words are listed as they stand or as their folded forms.
pub fn feed(folded: bool, block: &[u8], from: usize, held: &mut Held, out: &mut [u8]) -> Progress
    requires { from ≤ length block.now }
    ensures used_value { result.used ≡ (feeding folded block.now from held.old out.old).used }
    ensures written_value { result.written ≡ (feeding folded block.now from held.old out.old).written }
    ensures held_after { held.new ≡ (feeding folded block.now from held.old out.old).held }
    ensures out_after { out.new ≡ (feeding folded block.now from held.old out.old).out }
{
    let mut written = 0;
    for i in from..block.len() {
        if out.len() - written < LINE {
            return Progress { used: i, written };
        }
        written = feed_byte(folded, block[i], held, out, written);
    }
    Progress {
        used: block.len(),
        written,
    }
}

// The line that the input's end closes, if it is not empty, to the front of the output.
pub fn finish(folded: bool, held: &[u8], out: &mut [u8]) -> usize
    requires { line_room ≤ length out.old }
    ensures value { result ≡ length (last_out folded held.now) }
    ensures out_after { out.new ≡ put 0 (last_out folded held.now) out.old }
{
    if held.is_empty() {
        return 0;
    }
    listed::put_listed(out, 0, held, folded)
}
