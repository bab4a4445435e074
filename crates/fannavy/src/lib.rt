// What a host program links: thin calls under C's convention, each with its contract by the library's own definitions. None asks
// anything of its caller beyond what the signature says.
#![tactic(auto)]

ghost use Rattle.std.specs.Prelude.{◌≡◌, length};
ghost use Rattle.encoding.specs.Validity.{is_text};
ghost use Rattle.turkish.specs.Calls.{syllable_call, stage_call, postlude_call, postlude_out, fold_call, fold_out, pass_call, pass_out, noun_call, noun_out, whole_call, whole_out};
ghost use Rattle.batches.specs.BatchCalls.{batch, batch_call, lengths_after, answers_after, flags_after};
ghost use Rattle.turkish.specs.PieceCalls.{pieces_call, PiecesOut, pieces_text_call, PiecesTextOut};

use batch::call;
use folding::fold;
use outputs::{noun, pass, postlude, whole};
use pieces::{buffer, text};
use turkish::answer::{
    BatchAnswer, LengthAnswer, PassAnswer, PiecesAnswer, StageAnswer, SyllableAnswer, TextAnswer,
};
use words::{check, stage, syllable};

// Whether the bytes are UTF-8. Takes any slice.
#[unsafe(no_mangle)]
pub extern "C" fn fannavy_is_utf8(w: &[u8]) -> bool
    ensures { result ≡ is_text w.now }
{
    check::is_utf8(w)
}

// Whether the word has two or more vowels.
#[unsafe(no_mangle)]
pub extern "C" fn fannavy_syllable(w: &[u8]) -> SyllableAnswer
    ensures { result ≡ syllable_call w.now }
{
    SyllableAnswer::from(syllable::check_syllables(w))
}

// The suffix stage's numbers: the kept text is the word's first `length` bytes.
#[unsafe(no_mangle)]
pub extern "C" fn fannavy_stage(w: &[u8]) -> StageAnswer
    ensures { result ≡ stage_call w.now }
{
    StageAnswer::from(stage::stage_numbers(w))
}

// The postlude of the word, to an output of n + 2 bytes or more.
#[unsafe(no_mangle)]
pub extern "C" fn fannavy_postlude(w: &[u8], out: &mut [u8]) -> TextAnswer
    ensures value { result ≡ postlude_call w.now (length out.old) }
    ensures out_after { out.new ≡ postlude_out w.now out.old }
{
    TextAnswer::from(postlude::postlude_word(w, out))
}

// The word folded, to an output as long as the folded text or longer; 2n bytes always are.
#[unsafe(no_mangle)]
pub extern "C" fn fannavy_fold(w: &[u8], out: &mut [u8]) -> LengthAnswer
    ensures value { result ≡ fold_call w.now (length out.old) }
    ensures out_after { out.new ≡ fold_out w.now out.old }
{
    LengthAnswer::from(fold::fold_word(w, out))
}

// The word pass, to an output of n + 2 bytes or more.
#[unsafe(no_mangle)]
pub extern "C" fn fannavy_pass(w: &[u8], out: &mut [u8]) -> PassAnswer
    ensures value { result ≡ pass_call w.now (length out.old) }
    ensures out_after { out.new ≡ pass_out w.now out.old }
{
    PassAnswer::from(pass::pass_word(w, out))
}

// The noun stage of the word, to an output of n bytes or more.
#[unsafe(no_mangle)]
pub extern "C" fn fannavy_noun(w: &[u8], out: &mut [u8]) -> TextAnswer
    ensures value { result ≡ noun_call w.now (length out.old) }
    ensures out_after { out.new ≡ noun_out w.now out.old }
{
    TextAnswer::from(noun::noun_word(w, out))
}

// The crate's whole Turkish run on the word, to an output of n + 2 bytes or more.
#[unsafe(no_mangle)]
pub extern "C" fn fannavy_whole(w: &[u8], out: &mut [u8]) -> LengthAnswer
    ensures value { result ≡ whole_call w.now (length out.old) }
    ensures out_after { out.new ≡ whole_out w.now out.old }
{
    LengthAnswer::from(whole::whole_word(w, out))
}

// The pieces of the ending that the suffix stage removes, to a buffer of 9 bytes or more, in any order.
#[unsafe(no_mangle)]
pub extern "C" fn fannavy_pieces(w: &[u8], out: &mut [u8]) -> PiecesAnswer
    ensures value { result ≡ pieces_call w.now (length out.old) }
    ensures pieces_out { PiecesOut w.now out.old out.new }
{
    PiecesAnswer::from(buffer::pieces_word(w, out))
}

// The same as lines, to a buffer of 96 bytes or more, in any order.
#[unsafe(no_mangle)]
pub extern "C" fn fannavy_pieces_text(w: &[u8], out: &mut [u8]) -> LengthAnswer
    ensures value { result ≡ pieces_text_call w.now (length out.old) }
    ensures pieces_text_out { PiecesTextOut w.now out.old out.new }
{
    LengthAnswer::from(text::pieces_text(w, out))
}

// The suffix stage of a front with each of up to 64 tails, to three buffers of 64 entries or more.
#[unsafe(no_mangle)]
pub extern "C" fn fannavy_batch(
    front: &[u8],
    tails: &[u8],
    lengths: &mut [u8],
    answers: &mut [u8],
    flags: &mut [u8],
) -> BatchAnswer
    ensures value { result ≡ batch_call (batch front.now tails.now lengths.old answers.old flags.old) }
    ensures lengths_after { lengths.new ≡ lengths_after (batch front.now tails.now lengths.old answers.old flags.old) }
    ensures answers_after { answers.new ≡ answers_after (batch front.now tails.now lengths.old answers.old flags.old) }
    ensures flags_after { flags.new ≡ flags_after (batch front.now tails.now lengths.old answers.old flags.old) }
{
    BatchAnswer::from(call::batch_words(front, tails, lengths, answers, flags))
}
