// The walk back to the last vowel before a place, for the syllable check and the postlude.
ghost use Rattle.std.specs.Prelude.{◌≡◌, ◌≤◌, length};
ghost use Rattle.vowels.specs.LastVowel.{last_vowel_answer};

use crate::vowel;
use utf8::characters;

// A vowel and the place at which it starts.
#[derive(Clone, Copy)]
pub struct LastVowel {
    pub ch: u32,
    pub at: usize,
}

// The last vowel before place c. The labelled loop of gopast is a form that the scope names.
pub fn last_vowel(w: &[u8], c: usize) -> Option<LastVowel>
    requires { c ≤ length w.now }
    ensures { result ≡ last_vowel_answer w.now c }
{
    let mut at = c;
    'gopast: loop {
        if at == 0 {
            return None;
        }
        let n = characters::last_width(w, at);
        at -= n;
        let ch = characters::char_at(w, at, n);
        if vowel::is_vowel(ch) {
            break 'gopast Some(LastVowel { ch, at });
        }
    }
}
