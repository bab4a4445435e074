// The fold step by step: how long the folded text is, and its bytes written. Both walks make the same steps.
ghost use Rattle.std.specs.Prelude.{◌≡◌, ◌≤◌, length};
ghost use Rattle.turkish.specs.Calls.{limit, written};
ghost use Rattle.folding.specs.FoldBytes.{fold_bytes};

use crate::step;

// How many bytes the folded word has. A step takes one byte or two, so the place moves on by what each one says.
pub(crate) fn folded_length(w: &[u8]) -> usize
    requires { length w.now ≤ limit }
    ensures { result ≡ length (fold_bytes w.now) }
{
    let mut total = 0;
    let mut i = 0;
    while i < w.len() {
        let s = step::fold_at(w, i);
        total += s.gives();
        i += s.taken;
    }
    total
}

// Writes the folded word, and gives its length. A byte of ASCII is a step by itself, and is not tested for beginning a pair.
// A step takes one byte or two, so the place moves on by what each one says.
pub(crate) fn write_steps(w: &[u8], out: &mut [u8]) -> usize
    requires { length (fold_bytes w.now) ≤ length out.old }
    ensures value { result ≡ length (fold_bytes w.now) }
    ensures out_after { out.new ≡ written (fold_bytes w.now) out.old }
{
    let mut at = 0;
    let mut i = 0;
    while i < w.len() {
        let b = w[i];
        if b < 0x80 {
            at = step::fold_alone(b).put(out, at);
            i += 1;
            continue;
        }
        let s = step::fold_at(w, i);
        at = s.given.put(out, at);
        i += s.taken;
    }
    at
}
