// The marks of the noun stage (turkish.rs, `r_mark_possessives` to `r_mark_ncA`); its `r_mark_lAr` is the suffix stage's. Each takes the word and
// what is seen from a record, searches its own table, with no test before that, and answers the record moved back and what its harmony test found.
// The scope names this form, a function for each of the Rust's routines that takes the search's answer apart by `let .. else`.
ghost use Rattle.std.specs.Prelude.{◌≡◌};
ghost use Rattle.utf8.specs.Behind.{behind};
ghost use Rattle.theorems.specs.Simple.NounMarks.{possessives, sU, lArI, yU, nU, nUn, yA, nA, DA, ndA, DAn, ndAn, ylA, ki, ncA};
ghost use Rattle.theorems.specs.Simple.Pieces.{trace_of};
ghost use Rattle.keys.specs.Seen.{Sees};
ghost use Rattle.marks.specs.Reach.{reach};

use crate::tables;
use keys::among::find_among_b;
use keys::joint::{mark_suffix_with_optional_U_vowel, mark_suffix_with_optional_consonant};
use keys::seen::Seen;
use marks::marked;
use marks::marked::Marked;

// Inlined, so that its answer is not stored where only the place is asked for.
#[inline(always)]
pub fn mark_possessives(w: &[u8], s: Seen) -> Option<Marked>
    requires { Sees w.now s }
    ensures { result ≡ reach w.now s.c (trace_of possessives (behind w.now s.c)) }
{
    let Some(key) = find_among_b(w, s, &tables::A_0) else {
        return None;
    };
    let p = mark_suffix_with_optional_U_vowel(w, key.before);
    marked::kept(s.c, None, p)
}

pub fn mark_sU(w: &[u8], s: Seen) -> Option<Marked>
    requires { Sees w.now s }
    ensures { result ≡ reach w.now s.c (trace_of sU (behind w.now s.c)) }
{
    let Some(key) = find_among_b(w, s, &tables::U) else {
        return None;
    };
    let p = mark_suffix_with_optional_consonant(w, key.before, 0x73);
    marked::kept_in_harmony(w, s.c, None, p) // babası
}

pub fn mark_lArI(w: &[u8], s: Seen) -> Option<Marked>
    requires { Sees w.now s }
    ensures { result ≡ reach w.now s.c (trace_of lArI (behind w.now s.c)) }
{
    let Some(key) = find_among_b(w, s, &tables::A_1) else {
        return None;
    };
    marked::kept(s.c, None, Some(key.before.cursor))
}

pub fn mark_yU(w: &[u8], s: Seen) -> Option<Marked>
    requires { Sees w.now s }
    ensures { result ≡ reach w.now s.c (trace_of yU (behind w.now s.c)) }
{
    let Some(key) = find_among_b(w, s, &tables::U) else {
        return None;
    };
    let p = mark_suffix_with_optional_consonant(w, key.before, 0x79);
    marked::kept_in_harmony(w, s.c, None, p)
}

pub fn mark_nU(w: &[u8], s: Seen) -> Option<Marked>
    requires { Sees w.now s }
    ensures { result ≡ reach w.now s.c (trace_of nU (behind w.now s.c)) }
{
    let Some(key) = find_among_b(w, s, &tables::A_2) else {
        return None;
    };
    marked::in_harmony(w, s.c, None, key.before.cursor)
}

pub fn mark_nUn(w: &[u8], s: Seen) -> Option<Marked>
    requires { Sees w.now s }
    ensures { result ≡ reach w.now s.c (trace_of nUn (behind w.now s.c)) }
{
    let Some(key) = find_among_b(w, s, &tables::A_3) else {
        return None;
    };
    let p = mark_suffix_with_optional_consonant(w, key.before, 0x6E);
    marked::kept_in_harmony(w, s.c, None, p)
}

pub fn mark_yA(w: &[u8], s: Seen) -> Option<Marked>
    requires { Sees w.now s }
    ensures { result ≡ reach w.now s.c (trace_of yA (behind w.now s.c)) }
{
    let Some(key) = find_among_b(w, s, &tables::A_4) else {
        return None;
    };
    let p = mark_suffix_with_optional_consonant(w, key.before, 0x79);
    marked::kept_in_harmony(w, s.c, None, p)
}

pub fn mark_nA(w: &[u8], s: Seen) -> Option<Marked>
    requires { Sees w.now s }
    ensures { result ≡ reach w.now s.c (trace_of nA (behind w.now s.c)) }
{
    let Some(key) = find_among_b(w, s, &tables::A_5) else {
        return None;
    };
    marked::in_harmony(w, s.c, None, key.before.cursor)
}

pub fn mark_DA(w: &[u8], s: Seen) -> Option<Marked>
    requires { Sees w.now s }
    ensures { result ≡ reach w.now s.c (trace_of DA (behind w.now s.c)) }
{
    let Some(key) = find_among_b(w, s, &tables::A_6) else {
        return None;
    };
    marked::in_harmony(w, s.c, None, key.before.cursor)
}

pub fn mark_ndA(w: &[u8], s: Seen) -> Option<Marked>
    requires { Sees w.now s }
    ensures { result ≡ reach w.now s.c (trace_of ndA (behind w.now s.c)) }
{
    let Some(key) = find_among_b(w, s, &tables::A_7) else {
        return None;
    };
    marked::in_harmony(w, s.c, None, key.before.cursor)
}

pub fn mark_DAn(w: &[u8], s: Seen) -> Option<Marked>
    requires { Sees w.now s }
    ensures { result ≡ reach w.now s.c (trace_of DAn (behind w.now s.c)) }
{
    let Some(key) = find_among_b(w, s, &tables::A_8) else {
        return None;
    };
    marked::in_harmony(w, s.c, None, key.before.cursor)
}

pub fn mark_ndAn(w: &[u8], s: Seen) -> Option<Marked>
    requires { Sees w.now s }
    ensures { result ≡ reach w.now s.c (trace_of ndAn (behind w.now s.c)) }
{
    let Some(key) = find_among_b(w, s, &tables::A_9) else {
        return None;
    };
    marked::in_harmony(w, s.c, None, key.before.cursor)
}

pub fn mark_ylA(w: &[u8], s: Seen) -> Option<Marked>
    requires { Sees w.now s }
    ensures { result ≡ reach w.now s.c (trace_of ylA (behind w.now s.c)) }
{
    let Some(key) = find_among_b(w, s, &tables::A_10) else {
        return None;
    };
    let p = mark_suffix_with_optional_consonant(w, key.before, 0x79);
    marked::kept_in_harmony(w, s.c, None, p)
}

pub fn mark_ki(w: &[u8], s: Seen) -> Option<Marked>
    requires { Sees w.now s }
    ensures { result ≡ reach w.now s.c (trace_of ki (behind w.now s.c)) }
{
    let Some(key) = find_among_b(w, s, &tables::KI) else {
        return None;
    };
    marked::kept(s.c, None, Some(key.before.cursor))
}

pub fn mark_ncA(w: &[u8], s: Seen) -> Option<Marked>
    requires { Sees w.now s }
    ensures { result ≡ reach w.now s.c (trace_of ncA (behind w.now s.c)) }
{
    let Some(key) = find_among_b(w, s, &tables::A_11) else {
        return None;
    };
    let p = mark_suffix_with_optional_consonant(w, key.before, 0x6E);
    marked::kept_in_harmony(w, s.c, None, p)
}
