// The postlude of a word of bytes, written to a lent output of n + 2 bytes or more.
ghost use Rattle.std.specs.Prelude.{◌≡◌, length};
ghost use Rattle.turkish.specs.Calls.{postlude_call, postlude_out};
ghost use Rattle.turkish.specs.Results.{text_answer};

use crate::repair;
use refusals::refusal::Word;
use repairs::postlude;
use turkish::refusal::Refusal;
use turkish::reply::Text;

pub fn postlude_word(w: &[u8], out: &mut [u8]) -> Result<Text, Refusal>
    ensures value { text_answer result ≡ postlude_call w.now (length out.old) }
    ensures out_after { out.new ≡ postlude_out w.now out.old }
{
    Word::with_output(w, w.len() + 2, out.len())?;
    let r = postlude::postlude(w, w.len());
    let length = repair::write_repair(w, r, out);
    Ok(Text { length, yes: r.yes })
}
