// The output line of a line of the input, listed as it stands or as its folded form.
ghost use Rattle.std.specs.Prelude.{◌≡◌, true, ◌+◌, ◌≤◌, length};
ghost use Rattle.writing.specs.Put.{put};
ghost use Rattle.lines.specs.Line.{list_line};
ghost use Rattle.lines.specs.Listed.{listed};
ghost use Rattle.lines.specs.Room.{line_room};

use crate::line;
use folding::fold;
use refusals::refusal;

// Room for the folded form of any word within the limit.
const FOLDED: usize = 2 * refusal::LIMIT;

// Writes the output line of a word's folded form at place `at`, and gives the place after it. A word that the fold refuses is refused.
fn put_folded(out: &mut [u8], at: usize, w: &[u8]) -> usize
    requires { at + line_room ≤ length out.old }
    ensures value { result ≡ at + length (list_line (listed true w.now)) }
    ensures out_after { out.new ≡ put at (list_line (listed true w.now)) out.old }
{
    let mut text = [0u8; FOLDED];
    match fold::fold_word(w, &mut text) {
        Ok(n) => line::put_line(out, at, &text[..n]),
        Err(_) => line::put_line(out, at, w),
    }
}

// Writes the output line of one word at place `at`, as it stands or as its folded form, and gives the place after it.
pub fn put_listed(out: &mut [u8], at: usize, w: &[u8], folded: bool) -> usize
    requires { at + line_room ≤ length out.old }
    ensures value { result ≡ at + length (list_line (listed folded w.now)) }
    ensures out_after { out.new ≡ put at (list_line (listed folded w.now)) out.old }
{
    if folded {
        return put_folded(out, at, w);
    }
    line::put_line(out, at, w)
}
