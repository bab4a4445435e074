// The two backward steps over one lent cursor record, and one function with plain parameters that serves the library with them.
// Nothing here is offered to the host.
#![tactic(auto)]

ghost use Rattle.std.specs.Prelude.{◌≡◌, is_some, unwrap_or};
ghost use Rattle.utf8.specs.Steps.{previous_char_of, eq_s_b_of};
ghost use Rattle.lent.specs.Over.{one_back, over};

use utf8::cursor::Cursor;
use utf8::{literal, step};

// One character back: whether the cursor moved. At limit_backward, or outside the word, the record stays.
pub fn step_back(w: &[u8], c: &mut Cursor) -> bool
    ensures value { result ≡ is_some (previous_char_of w.now c.old) }
    ensures c_after { c.new ≡ unwrap_or (one_back w.now c.old) c.old }
{
    let Some(s) = step::previous_char(w, *c) else {
        return false;
    };
    *c = s.next;
    true
}

// Back past the literal s: whether the cursor moved. Where s does not stand before the cursor, the record stays.
pub fn literal_back(w: &[u8], s: &[u8], c: &mut Cursor) -> bool
    ensures value { result ≡ is_some (eq_s_b_of w.now s.now c.old) }
    ensures c_after { c.new ≡ unwrap_or (eq_s_b_of w.now s.now c.old) c.old }
{
    let Some(n) = literal::eq_s_b(w, s, *c) else {
        return false;
    };
    *c = n;
    true
}

// Whether the literal stood, whether the joint stood before it, the record before both, and the record one character back from there. A
// literal that does not stand leaves the record as it is.
#[derive(Clone, Copy)]
pub struct Over {
    pub literal: bool,
    pub joined: bool,
    pub here: Cursor,
    pub next: Option<Cursor>,
}

// Back past the literal s, past the literal y if it stands there, and then one character, over one record of its own.
pub fn back_over(w: &[u8], s: &[u8], y: &[u8], r: Cursor) -> Over
    ensures { result ≡ over w.now s.now y.now r }
{
    let mut c = r;
    let literal = literal_back(w, s, &mut c);
    let joined = literal_back(w, y, &mut c);
    let here = c;
    let next = step_back(w, &mut c).then_some(c);
    Over {
        literal,
        joined,
        here,
        next,
    }
}
