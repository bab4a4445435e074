// One character back and one on (snowball_env.rs, `previous_char`, `next_char`), by value and never past the limits. Two functions, since each line
// differs: which width, which limit, and where the character and the cursor stand after it.
ghost use Rattle.std.specs.Prelude.{◌≡◌};
ghost use Rattle.utf8.specs.Steps.{previous_char_of, next_char_of};

use crate::characters;
use crate::cursor::Cursor;

// The character that the cursor passed, and the record after the step.
#[derive(Clone, Copy)]
pub struct Step {
    pub ch: u32,
    pub next: Cursor,
}

// One character back; none at limit_backward, or outside the word.
pub fn previous_char(w: &[u8], r: Cursor) -> Option<Step>
    ensures { result ≡ previous_char_of w.now r }
{
    if !r.stands_in(w) {
        return None;
    }
    let c = r.cursor;
    let n = characters::last_width(w, c);
    if c - r.limit_backward < n {
        return None;
    }
    let start = c - n;
    Some(Step {
        ch: characters::char_at(w, start, n),
        next: r.moved_to(start),
    })
}

// One character on; none at limit, or outside the word.
pub fn next_char(w: &[u8], r: Cursor) -> Option<Step>
    ensures { result ≡ next_char_of w.now r }
{
    if !r.stands_in(w) {
        return None;
    }
    let c = r.cursor;
    let n = characters::first_width(w, c);
    if r.limit - c < n {
        return None;
    }
    Some(Step {
        ch: characters::char_at(w, c, n),
        next: r.moved_to(c + n),
    })
}
