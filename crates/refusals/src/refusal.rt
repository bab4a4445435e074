// Which words are accepted, and why a call refuses any other.
ghost use Rattle.std.specs.Prelude.{◌≡◌, true, ◌≤◌, IfOk};
ghost use Rattle.turkish.specs.Calls.{refusal, refusal_short_of, refusal_into_of, accepted};
ghost use Rattle.turkish.specs.Refusals.{refusal_number, result_number};

use encoding::validity;
use turkish::refusal::Refusal;

// The longest word, in bytes.
pub const LIMIT: usize = 96;

// A word that is accepted: within the limit, and UTF-8.
#[derive(Clone, Copy)]
pub struct Word<'a> {
    pub bytes: &'a [u8],
    pub ghost is_accepted: { accepted bytes.now ≡ true },
}

impl<'a> Word<'a> {
    // The word of these bytes, where they are accepted.
    pub fn new(w: &'a [u8]) -> Result<Word<'a>, Refusal>
        ensures number { result_number result ≡ refusal w.now }
        ensures same { IfOk result (λ word. word.bytes.now ≡ w.now) }
    {
        if LIMIT < w.len() {
            return Err(Refusal::OverLimit);
        }
        if validity::is_utf8(w) {
            return Ok(Word { bytes: w });
        }
        Err(Refusal::NotUtf8)
    }

    // The same where a buffer of `room` bytes is not shorter than the call needs; `short` is the call's own refusal where it is.
    pub fn with_room(
        w: &'a [u8],
        short: Refusal,
        need: usize,
        room: usize,
    ) -> Result<Word<'a>, Refusal>
        ensures number { result_number result ≡ refusal_short_of (refusal_number short) w.now need room }
        ensures same { IfOk result (λ word. word.bytes.now ≡ w.now) }
        ensures fits { IfOk result (λ word. need ≤ room) }
    {
        let word = Word::new(w)?;
        if room < need {
            return Err(short);
        }
        Ok(word)
    }

    // The same where that is an output.
    pub fn with_output(w: &'a [u8], need: usize, room: usize) -> Result<Word<'a>, Refusal>
        ensures number { result_number result ≡ refusal_into_of w.now need room }
        ensures same { IfOk result (λ word. word.bytes.now ≡ w.now) }
        ensures fits { IfOk result (λ word. need ≤ room) }
    {
        Word::with_room(w, Refusal::OutputTooShort, need, room)
    }
}

// The number of the word's refusal, and the caller's own where the word is accepted and a buffer of `room` bytes is shorter than the
// caller needs; 0 where neither applies. It stands beside `with_room` since it takes any number of a caller's own.
pub fn refusal_short(w: &[u8], number: u32, need: usize, room: usize) -> u32
    ensures { result ≡ refusal_short_of number w.now need room }
{
    match Word::new(w) {
        Err(refusal) => u32::from(refusal),
        Ok(_) if room < need => number,
        Ok(_) => 0,
    }
}
