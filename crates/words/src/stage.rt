// The suffix stage of a word of bytes: the text kept, as a part of the caller's own bytes, and its numbers by a second call.
ghost use Rattle.std.specs.Prelude.{◌≡◌};
ghost use Rattle.turkish.specs.Calls.{stage_part_of, stage_call};
ghost use Rattle.turkish.specs.Results.{stage_answer};
ghost use Rattle.words.specs.Stage.{told_of};

use refusals::refusal::Word;
use stages::stage;
use stages::stage::Outcome;
use turkish::refusal::Refusal;
use turkish::reply::{Harmony, Stage};

// What is told of the stage's outcome.
fn told(s: Outcome) -> Stage
    ensures { result ≡ told_of s }
{
    Stage {
        length: s.kept,
        yes: s.yes,
        flag: s.flag,
        harmony: s.way.heard.map(|h| Harmony {
            last: h.last,
            partner: h.partner,
            loan: h.skips,
        }),
    }
}

// The part of the word that is kept; empty on a refusal.
pub fn stage_part(w: &[u8]) -> &[u8]
    ensures { result.now ≡ stage_part_of w.now }
{
    let refused = Word::new(w).is_err();
    if refused {
        return &w[..0];
    }
    let s = stage::stem_nominal_verb_suffixes(w);
    let kept = s.kept;
    &w[..kept]
}

// The kept text's length, yes or no, the flag, and what harmony found.
pub fn stage_numbers(w: &[u8]) -> Result<Stage, Refusal>
    ensures { stage_answer result ≡ stage_call w.now }
{
    Word::new(w)?;
    Ok(told(stage::stem_nominal_verb_suffixes(w)))
}
