// The pieces of a removed ending as numbers, in a lent buffer of 9 bytes or more.
ghost use Rattle.std.specs.Prelude.{◌≡◌, length};
ghost use Rattle.turkish.specs.PieceCalls.{pieces_call, PiecesOut};
ghost use Rattle.turkish.specs.Results.{pieces_answer};

use crate::removed;
use kinds::entries;
use refusals::refusal::Word;
use turkish::refusal::Refusal;
use turkish::reply::Pieces;

// The bytes that three pieces take.
const ROOM: usize = 9;

// The kept text's length and how many pieces there are. In which order they stand in the buffer is free.
pub fn pieces_word(w: &[u8], out: &mut [u8]) -> Result<Pieces, Refusal>
    ensures value { pieces_answer result ≡ pieces_call w.now (length out.old) }
    ensures pieces_out { PiecesOut w.now out.old out.new }
{
    let word = Word::with_room(w, Refusal::BufferTooShort, ROOM, out.len())?;
    let r = removed::pieces_of(word);
    entries::put_pieces(r, out);
    Ok(Pieces {
        length: r.length,
        count: r.count,
    })
}
