// The noun stage of a word of bytes (document 02, request 4), written to a lent output of n bytes or more.
ghost use Rattle.std.specs.Prelude.{◌≡◌, length};
ghost use Rattle.turkish.specs.Calls.{noun_call, noun_out};
ghost use Rattle.turkish.specs.Results.{text_answer};

use crate::run;
use crate::run::Run;
use nouns::stage;
use refusals::refusal::Word;
use turkish::refusal::Refusal;
use turkish::reply::Text;

pub fn noun_word(w: &[u8], out: &mut [u8]) -> Result<Text, Refusal>
    ensures value { text_answer result ≡ noun_call w.now (length out.old) }
    ensures out_after { out.new ≡ noun_out w.now out.old }
{
    Word::with_output(w, w.len(), out.len())?;
    let u = stage::stem_noun_suffixes(w, w.len());
    let length = run::write_run(w, Run::left(u, w.len()), out);
    Ok(Text {
        length,
        yes: u.is_some(),
    })
}
