// The syllable check of a word of bytes.
ghost use Rattle.std.specs.Prelude.{◌≡◌};
ghost use Rattle.turkish.specs.Calls.{syllable_call};
ghost use Rattle.turkish.specs.Results.{syllable_answer};

use refusals::refusal::Word;
use stages::syllable;
use turkish::refusal::Refusal;

// Whether the word has two or more vowels.
pub fn check_syllables(w: &[u8]) -> Result<bool, Refusal>
    ensures { syllable_answer result ≡ syllable_call w.now }
{
    Word::new(w)?;
    Ok(syllable::more_than_one_syllable_word(w, w.len()))
}
