// The crate's whole Turkish run on a word of bytes (turkish.rs, `stem`; document 02, request 4), written to a lent output of n + 2 bytes or more.
ghost use Rattle.std.specs.Prelude.{◌≡◌, length};
ghost use Rattle.turkish.specs.Calls.{whole_call, whole_out};
ghost use Rattle.turkish.specs.Results.{length_answer};

use crate::run;
use refusals::refusal::Word;
use stages::{stage, syllable};
use turkish::refusal::Refusal;
use writing::put;

// The text's length.
pub fn whole_word(w: &[u8], out: &mut [u8]) -> Result<usize, Refusal>
    ensures value { length_answer result ≡ whole_call w.now (length out.old) }
    ensures out_after { out.new ≡ whole_out w.now out.old }
{
    Word::with_output(w, w.len() + 2, out.len())?;
    if !syllable::more_than_one_syllable_word(w, w.len()) {
        return Ok(put::copy(w, out));
    }
    let r = run::whole_of(w, stage::stem_nominal_verb_suffixes(w));
    Ok(run::write_run(w, r, out))
}
