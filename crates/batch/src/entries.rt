// The entries of the three buffers, a tail at a time: the stage runs on the tail behind a stand-in for the front.
ghost use Rattle.std.specs.Prelude.{◌≡◌, ◌+◌, ◌-◌, ◌≤◌, ◌<◌, ◌++◌, length, take, set};
ghost use Rattle.writing.specs.Put.{put};
ghost use Rattle.turkish.specs.Calls.{limit};
ghost use Rattle.batches.specs.BatchCalls.{bit, batch, batch_refusal, tails_in, lengths_after, answers_after, flags_after};
ghost use Rattle.batch.specs.Tails.{tails_of};
ghost use Rattle.batch.specs.Removal.{removal_of};

use crate::tails::Tails;
use fronts::{stand_in, summary};
use refusals::refusal::LIMIT;
use stages::stage;
use writing::put;

// The bytes of a stand-in and a tail: nine vowels of two bytes, and the limit.
const ROOM: usize = 18 + LIMIT;

// What the stage removes of a word: how many bytes, with its yes or no and the flag.
#[derive(Clone, Copy)]
pub struct Removal {
    pub bytes: usize,
    pub yes: bool,
    pub flag: bool,
}

// The stage of a tail behind the first m bytes of `word`, where it is put.
fn stem_behind(word: &mut [u8], m: usize, tail: &[u8]) -> Removal
    requires { m + length tail.now ≤ length word.old }
    ensures value { result ≡ removal_of (take m word.old ++ tail.now) }
    ensures word_after { word.new ≡ put m tail.now word.old }
{
    let end = put::put_all(word, m, tail);
    let o = stage::stem_nominal_verb_suffixes(&word[..end]);
    Removal {
        bytes: end - o.kept,
        yes: o.yes,
        flag: o.flag,
    }
}

// Writes entry i of each buffer, for a tail behind a front of n bytes; the front's stand-in is the first m bytes of `word`.
fn put_entry(
    word: &mut [u8],
    m: usize,
    n: usize,
    tail: &[u8],
    i: usize,
    lengths: &mut [u8],
    answers: &mut [u8],
    flags: &mut [u8],
)
    requires tail_in_bounds { m + length tail.now ≤ length word.old }
    requires tail_bound { n + length tail.now ≤ limit }
    requires tail_bound_2 { (removal_of (take m word.old ++ tail.now)).bytes ≤ n + length tail.now }
    requires i_in_bounds { i < length lengths.old }
    requires i_in_bounds_2 { i < length answers.old }
    requires i_in_bounds_3 { i < length flags.old }
    ensures word_after { word.new ≡ put m tail.now word.old }
    ensures lengths_after { lengths.new ≡ set lengths.old i (n + length tail.now - (removal_of (take m word.old ++ tail.now)).bytes) }
    ensures answers_after { answers.new ≡ set answers.old i (bit (removal_of (take m word.old ++ tail.now)).yes) }
    ensures flags_after { flags.new ≡ set flags.old i (bit (removal_of (take m word.old ++ tail.now)).flag) }
{
    let r = stem_behind(word, m, tail);
    lengths[i] = (n + tail.len() - r.bytes) as u8;
    answers[i] = u8::from(r.yes);
    flags[i] = u8::from(r.flag);
}

// Writes an entry for each tail of a batch that is not refused.
pub(crate) fn put_entries(
    front: &[u8],
    slice: &[u8],
    t: Tails,
    lengths: &mut [u8],
    answers: &mut [u8],
    flags: &mut [u8],
)
    requires t_value { t ≡ tails_of (tails_in slice.now) }
    requires flags_value { batch_refusal (batch front.now slice.now lengths.old answers.old flags.old) ≡ 0 }
    ensures lengths_after { lengths.new ≡ lengths_after (batch front.now slice.now lengths.old answers.old flags.old) }
    ensures answers_after { answers.new ≡ answers_after (batch front.now slice.now lengths.old answers.old flags.old) }
    ensures flags_after { flags.new ≡ flags_after (batch front.now slice.now lengths.old answers.old flags.old) }
{
    let mut word = [0u8; ROOM];
    let m = stand_in::put_stand_in(summary::summary_of(front), &mut word);
    let mut at = 0;
    for i in 0..t.survey.count {
        let end = t.ends[i];
        put_entry(
            &mut word,
            m,
            front.len(),
            &slice[at..end],
            i,
            lengths,
            answers,
            flags,
        );
        at = end + 1;
    }
}
