// The fold of a word of bytes (document 01, "Fold"; document 02, request 2), written to a lent output that is as long as the folded
// text or longer. ı has a byte more than I, and i one less than İ, so where the output might be too short the text is measured first.
ghost use Rattle.std.specs.Prelude.{◌≡◌, true, leb, length};
ghost use Rattle.turkish.specs.Calls.{fold_text, fold_call, fold_out};
ghost use Rattle.turkish.specs.Results.{length_answer};
ghost use Rattle.folding.specs.FoldBytes.{plain, long_plain};

use crate::{plain, walk};
use refusals::refusal::Word;
use turkish::refusal::Refusal;

// From this length on a word is tried for being plain; in a shorter one the test costs more than it spares.
const LONG: usize = 16;

// Whether the word is long enough for the test, and plain.
fn is_long_plain(w: &[u8]) -> bool
    ensures { result ≡ long_plain w.now }
{
    if w.len() < LONG {
        return false;
    }
    plain::is_plain(w)
}

// Whether the folded word fits into `room` bytes. Twice its own length always does.
fn fits(w: Word, room: usize) -> bool
    ensures { result ≡ leb (length (fold_text w.entry.bytes.now)) room }
{
    if 2 * w.bytes.len() <= room {
        return true;
    }
    walk::folded_length(w.bytes) <= room
}

// The fold of a plain word, which is as long as the word.
fn fold_plain(w: Word, out: &mut [u8]) -> Result<usize, Refusal>
    requires { plain w.bytes.now ≡ true }
    ensures value { length_answer result ≡ fold_call w.entry.bytes.now (length out.old) }
    ensures out_after { out.new ≡ fold_out w.entry.bytes.now out.old }
{
    if out.len() < w.bytes.len() {
        return Err(Refusal::OutputTooShort);
    }
    plain::write_plain(w.bytes, out);
    Ok(w.bytes.len())
}

// The fold of any accepted word.
fn fold_steps(w: Word, out: &mut [u8]) -> Result<usize, Refusal>
    ensures value { length_answer result ≡ fold_call w.entry.bytes.now (length out.old) }
    ensures out_after { out.new ≡ fold_out w.entry.bytes.now out.old }
{
    if !fits(w, out.len()) {
        return Err(Refusal::OutputTooShort);
    }
    Ok(walk::write_steps(w.bytes, out))
}

// The word with A to Z and Ç Ğ Ö Ş Ü in their small letters, where I becomes ı and İ becomes i; the text's length.
pub fn fold_word(w: &[u8], out: &mut [u8]) -> Result<usize, Refusal>
    ensures value { length_answer result ≡ fold_call w.now (length out.old) }
    ensures out_after { out.new ≡ fold_out w.now out.old }
{
    let word = Word::new(w)?;
    if is_long_plain(word.bytes) {
        return fold_plain(word, out);
    }
    fold_steps(word, out)
}
