// The call on a front and its tails.
ghost use Rattle.std.specs.Prelude.{◌≡◌};
ghost use Rattle.turkish.specs.Results.{batch_answer};
ghost use Rattle.batches.specs.BatchCalls.{batch, batch_call, lengths_after, answers_after, flags_after};

use crate::{entries, refusal, tails};
use turkish::refusal::Refusal;

// How many tails there are; of each joined word, in order, the length kept, yes or no and the flag, to buffers of 64 entries or more.
pub fn batch_words(
    front: &[u8],
    slice: &[u8],
    lengths: &mut [u8],
    answers: &mut [u8],
    flags: &mut [u8],
) -> Result<usize, Refusal>
    ensures value { batch_answer result ≡ batch_call (batch front.now slice.now lengths.old answers.old flags.old) }
    ensures lengths_after { lengths.new ≡ lengths_after (batch front.now slice.now lengths.old answers.old flags.old) }
    ensures answers_after { answers.new ≡ answers_after (batch front.now slice.now lengths.old answers.old flags.old) }
    ensures flags_after { flags.new ≡ flags_after (batch front.now slice.now lengths.old answers.old flags.old) }
{
    let t = tails::find_tails(slice);
    let s = t.survey;
    refusal::check_batch(front, slice, s, lengths.len(), answers.len(), flags.len())?;
    entries::put_entries(front, slice, t, lengths, answers, flags);
    Ok(s.count)
}
