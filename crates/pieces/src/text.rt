// The pieces of a removed ending as lines, in a lent buffer of 96 bytes or more.
ghost use Rattle.std.specs.Prelude.{◌≡◌, length};
ghost use Rattle.turkish.specs.PieceCalls.{pieces_text_call, PiecesTextOut};
ghost use Rattle.turkish.specs.Results.{length_answer};

use crate::removed;
use kinds::spelling;
use refusals::refusal::Word;
use turkish::refusal::Refusal;

// More than the longest three lines take.
const ROOM: usize = 96;

// The length of the lines. In which order they stand in the buffer is free.
pub fn pieces_text(w: &[u8], out: &mut [u8]) -> Result<usize, Refusal>
    ensures value { length_answer result ≡ pieces_text_call w.now (length out.old) }
    ensures pieces_text_out { PiecesTextOut w.now out.old out.new }
{
    let word = Word::with_room(w, Refusal::BufferTooShort, ROOM, out.len())?;
    let r = removed::pieces_of(word);
    Ok(spelling::put_lines(w, r, out))
}
