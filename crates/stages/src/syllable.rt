// The syllable check (turkish.rs, `r_more_than_one_syllable_word`), walked from the word's end as harmony is.
ghost use Rattle.std.specs.Prelude.{◌≡◌, ◌≤◌, length};
ghost use Rattle.utf8.specs.Characters.{before};
ghost use Rattle.theorems.specs.Simple.Harmony.{more_than_one_syllable};

use vowels::walk;

// Whether two or more vowels stand before place c: a vowel before the last one.
pub fn more_than_one_syllable_word(w: &[u8], c: usize) -> bool
    requires { c ≤ length w.now }
    ensures { result ≡ more_than_one_syllable (before w.now c) }
{
    let Some(last) = walk::last_vowel(w, c) else {
        return false;
    };
    walk::last_vowel(w, last.at).is_some()
}
