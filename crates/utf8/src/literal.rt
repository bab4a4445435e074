// A literal before or after the cursor (snowball_env.rs, `eq_s_b`, `eq_s`), compared byte by byte and never past the limits. Two functions, since
// each line differs: which bytes, which end of them, and where the cursor goes.
ghost use Rattle.std.specs.Prelude.{◌≡◌};
ghost use Rattle.utf8.specs.Steps.{eq_s_b_of, eq_s_of};

use crate::cursor::Cursor;

// Back past s where it stands before the cursor, within limit_backward: the record after it.
pub fn eq_s_b(w: &[u8], s: &[u8], r: Cursor) -> Option<Cursor>
    ensures { result ≡ eq_s_b_of w.now s.now r }
{
    if !r.stands_in(w) {
        return None;
    }
    let before = &w[r.limit_backward..r.cursor];
    if !before.ends_with(s) {
        return None;
    }
    Some(r.moved_to(r.cursor - s.len()))
}

// On past s where it stands at the cursor, below limit: the record after it.
pub fn eq_s(w: &[u8], s: &[u8], r: Cursor) -> Option<Cursor>
    ensures { result ≡ eq_s_of w.now s.now r }
{
    if !r.stands_in(w) {
        return None;
    }
    if r.limit <= r.cursor {
        return None;
    }
    let after = &w[r.cursor..r.limit];
    if !after.starts_with(s) {
        return None;
    }
    Some(r.moved_to(r.cursor + s.len()))
}
