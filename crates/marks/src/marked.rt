// A mark's answer where it fits: the record moved back, which mark it is and what its harmony test found.
ghost use Rattle.std.specs.Prelude.{◌≡◌, Some};
ghost use Rattle.utf8.specs.Behind.{Open};
ghost use Rattle.marks.specs.Reach.{kept, kept_in_harmony_of, place_of};

use utf8::cursor::Cursor;
use vowels::harmony;
use vowels::harmony::Harmony;

// The suffix stage's marks, numbered in the order of document 01's mark tables with yken last.
#[derive(Clone, Copy)]
pub enum Mark {
    YUm = 1,
    SUn,
    YUz,
    SUnUz,
    LAr,
    NUz,
    DUr,
    CAsInA,
    YDU,
    YsA,
    YmUs,
    Yken,
}

// A mark of the noun stage has no kind, and one that tests no harmony has heard nothing. A caller may tell its marks apart by a kind of its own.
#[derive(Clone, Copy)]
pub struct Marked<K = Option<Mark>> {
    pub before: Cursor,
    pub kind: K,
    pub heard: Option<Harmony>,
}

// A mark that tests no harmony, from how far its key and what joins it go.
#[tactic(auto, unfolding(crate::specs::Reach::kept))]
pub fn kept<K: Copy>(c: Cursor, kind: K, p: Option<usize>) -> Option<Marked<K>>
    ensures { result ≡ kept c kind p }
{
    let at = p?;
    Some(Marked {
        before: c.moved_to(at),
        kind,
        heard: None,
    })
}

// The same of a mark that tests harmony, which is walked for last: all must hold, so the answer is the same as in the Rust, which tests it
// first. The walk is called from here and below, so the compiler leaves it out of line and inlines these two into the marks.
#[tactic(auto, unfolding(crate::specs::Reach::kept_in_harmony_of))]
pub fn kept_in_harmony<K: Copy>(w: &[u8], c: Cursor, kind: K, p: Option<usize>) -> Option<Marked<K>>
    requires { Open w.now c }
    ensures { result ≡ kept_in_harmony_of w.now c kind p }
{
    let at = p?;
    let heard = harmony::listen(w, c)?;
    Some(Marked {
        before: c.moved_to(at),
        kind,
        heard: Some(heard),
    })
}

// The same of a mark that nothing joins: it goes to the place before its key.
#[tactic(auto, unfolding(crate::specs::Reach::kept_in_harmony_of))]
pub fn in_harmony<K: Copy>(w: &[u8], c: Cursor, kind: K, at: usize) -> Option<Marked<K>>
    requires { Open w.now c }
    ensures { result ≡ kept_in_harmony_of w.now c kind (Some at) }
{
    let found = harmony::listen(w, c)?;
    Some(Marked {
        before: c.moved_to(at),
        kind,
        heard: Some(found),
    })
}

// How far a mark went alone.
#[tactic(auto, unfolding(crate::specs::Reach::place_of))]
pub fn place<K: Copy>(m: Option<Marked<K>>) -> Option<usize>
    ensures { result ≡ place_of m }
{
    let m = m?;
    Some(m.before.cursor)
}
