// Vowel harmony (turkish.rs, `r_check_vowel_harmony`): the last vowel before the cursor, and the nearest of its partners before it.
ghost use Rattle.std.specs.Prelude.{◌≡◌, ◌≤◌, length};
ghost use Rattle.utf8.specs.Behind.{Open};
ghost use Rattle.vowels.specs.Harmony.{harmony_before, harmony_at};

use crate::vowel::Vowel;
use utf8::characters;
use utf8::cursor::Cursor;

// What harmony found before a cursor: the places at which the last vowel and its nearest partner start, and whether a vowel that is no partner
// was passed between them.
#[derive(Clone, Copy)]
pub struct Harmony {
    pub last: usize,
    pub partner: usize,
    pub skips: bool,
}

// Harmony before place c: no vowel, or one vowel only, has none. The labelled loops of goto are a form that the scope names.
fn check_vowel_harmony(w: &[u8], c: usize) -> Option<Harmony>
    requires { c ≤ length w.now }
    ensures { result ≡ harmony_before w.now c }
{
    let mut at = c;
    let v = 'goto: loop {
        if at == 0 {
            return None;
        }
        let n = characters::last_width(w, at);
        at -= n;
        let ch = characters::char_at(w, at, n);
        let Some(v) = Vowel::of(ch) else {
            continue 'goto;
        };
        break 'goto v;
    };
    let last = at;
    let mut skips = false;
    'goto: loop {
        if at == 0 {
            return None;
        }
        let n = characters::last_width(w, at);
        at -= n;
        let ch = characters::char_at(w, at, n);
        let Some(u) = Vowel::of(ch) else {
            continue 'goto;
        };
        if v.has_partner(u.ch) {
            break 'goto;
        }
        skips = true;
    }
    Some(Harmony {
        last,
        partner: at,
        skips,
    })
}

// Harmony before the cursor, down to limit_backward.
pub fn listen(w: &[u8], c: Cursor) -> Option<Harmony>
    requires { Open w.now c }
    ensures { result ≡ harmony_at w.now c }
{
    let low = c.limit_backward;
    let part = &w[low..];
    let h = check_vowel_harmony(part, c.cursor - low)?;
    Some(Harmony {
        last: low + h.last,
        partner: low + h.partner,
        ..h
    })
}
