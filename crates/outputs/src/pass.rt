// The word pass (document 01, "Word pass"), written to a lent output of n + 2 bytes or more.
ghost use Rattle.std.specs.Prelude.{◌≡◌, length};
ghost use Rattle.turkish.specs.Calls.{pass_call, pass_out};
ghost use Rattle.turkish.specs.Results.{pass_answer};

use crate::repair;
use refusals::refusal::Word;
use repairs::postlude;
use stages::{stage, syllable};
use turkish::refusal::Refusal;
use turkish::reply::Pass;
use writing::put;

pub fn pass_word(w: &[u8], out: &mut [u8]) -> Result<Pass, Refusal>
    ensures value { pass_answer result ≡ pass_call w.now (length out.old) }
    ensures out_after { out.new ≡ pass_out w.now out.old }
{
    Word::with_output(w, w.len() + 2, out.len())?;
    if !syllable::more_than_one_syllable_word(w, w.len()) {
        let length = put::copy(w, out);
        return Ok(Pass {
            length,
            syllable: false,
            yes: false,
            flag: true,
        });
    }
    let s = stage::stem_nominal_verb_suffixes(w);
    let kept = s.kept;
    if !s.flag {
        let length = put::copy(&w[..kept], out);
        return Ok(Pass {
            length,
            syllable: true,
            yes: s.yes,
            flag: false,
        });
    }
    let r = postlude::postlude(w, kept);
    let length = repair::write_repair(w, r, out);
    Ok(Pass {
        length,
        syllable: true,
        yes: s.yes,
        flag: true,
    })
}
