// Why a batch is refused.
ghost use Rattle.std.specs.Prelude.{◌≡◌};
ghost use Rattle.turkish.specs.Refusals.{result_number};
ghost use Rattle.batches.specs.BatchCalls.{tails_in, words_refusal_of, rooms_refusal_of, number_of};
ghost use Rattle.batch.specs.Tails.{survey_of};

use crate::tails;
use crate::tails::Survey;
use encoding::validity;
use refusals::refusal;
use turkish::refusal::Refusal;

// The front and each joined word are within the limit, and the front and each tail are UTF-8. The slice is checked once: a line feed goes on
// with no character.
fn check_words(front: &[u8], slice: &[u8], s: Survey) -> Result<(), Refusal>
    requires { s ≡ survey_of (tails_in slice.now) }
    ensures { result_number result ≡ words_refusal_of front.now (tails_in slice.now) }
{
    if refusal::LIMIT < front.len() {
        return Err(Refusal::OverLimit);
    }
    if refusal::LIMIT - front.len() < s.longest {
        return Err(Refusal::OverLimit);
    }
    if !validity::is_utf8(front) {
        return Err(Refusal::NotUtf8);
    }
    if !validity::is_utf8(slice) {
        return Err(Refusal::NotUtf8);
    }
    Ok(())
}

// Each buffer has 64 entries or more.
fn check_rooms(lengths: usize, answers: usize, flags: usize) -> Result<(), Refusal>
    ensures { result_number result ≡ rooms_refusal_of lengths answers flags }
{
    if lengths < tails::TAILS {
        return Err(Refusal::OutputTooShort);
    }
    if answers < tails::TAILS {
        return Err(Refusal::OutputTooShort);
    }
    if flags < tails::TAILS {
        return Err(Refusal::OutputTooShort);
    }
    Ok(())
}

// The first refusal that applies: the words'; that of more than 64 tails or one under 16 characters; the buffers'.
pub(crate) fn check_batch(
    front: &[u8],
    slice: &[u8],
    s: Survey,
    lengths: usize,
    answers: usize,
    flags: usize,
) -> Result<(), Refusal>
    requires { s ≡ survey_of (tails_in slice.now) }
    ensures { result_number result ≡ number_of front.now (tails_in slice.now) lengths answers flags }
{
    check_words(front, slice, s)?;
    if tails::TAILS < s.count {
        return Err(Refusal::TailsRefused);
    }
    if s.short {
        return Err(Refusal::TailsRefused);
    }
    check_rooms(lengths, answers, flags)
}
