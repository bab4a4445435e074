// What joins a mark's key to the text before it (turkish.rs, `r_mark_suffix_with_optional_n_consonant`, `.._s_consonant`, `.._y_consonant` and
// `.._U_vowel`): an optional letter after a vowel or, where the letter is a U, after a character that is none. Each answers the place before it.
ghost use Rattle.std.specs.Prelude.{◌≡◌, true, false, [], ◌∷◌};
ghost use Rattle.utf8.specs.Behind.{behind, Open};
ghost use Rattle.turkish.specs.Letters.{text};
ghost use Rattle.turkish.specs.Source.{U};
ghost use Rattle.theorems.specs.Simple.Grammar.{optional};
ghost use Rattle.keys.specs.Passed.{passes};

use crate::ends;
use utf8::characters;
use utf8::cursor::Cursor;
use vowels::vowel::is_vowel;

// An optional consonant before the cursor: y, n or s.
pub fn mark_suffix_with_optional_consonant(w: &[u8], c: Cursor, letter: u32) -> Option<usize>
    requires { Open w.now c }
    ensures { result ≡ passes w.now c (optional (letter ∷ []) true (behind w.now c)) }
{
    let low = c.limit_backward;
    let part = &w[low..];
    let a = characters::read_short_back(part, c.cursor - low);
    let b = characters::read_short_back(part, a.at);
    if !is_vowel(b.ch) {
        return None;
    }
    if a.ch == letter {
        return Some(low + a.at);
    }
    Some(c.cursor)
}

// An optional U before the cursor.
pub fn mark_suffix_with_optional_U_vowel(w: &[u8], c: Cursor) -> Option<usize>
    requires { Open w.now c }
    ensures { result ≡ passes w.now c (optional (text U) false (behind w.now c)) }
{
    let low = c.limit_backward;
    let part = &w[low..];
    let a = characters::read_back(part, c.cursor - low);
    if a.at == 0 {
        return None;
    }
    let b = characters::read_back(part, a.at);
    if is_vowel(b.ch) {
        return None;
    }
    if ends::is_U(a.ch) {
        return Some(low + a.at);
    }
    Some(c.cursor)
}
