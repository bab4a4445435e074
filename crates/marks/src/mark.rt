// The marks of the suffix stage (turkish.rs, `r_mark_yUm` to `r_mark_yken`). Each takes the word and what is seen from a record, searches its own
// table, and answers the record moved back, which mark it is and what its harmony test found. Before the search only the last letter is tested:
// most marks fail by it. Beside a search that fails stands a word that has the last letter and no key. The scope names this form, a function for
// each of the Rust's routines that takes the search's answer apart by `let .. else`, so no one function over a table of marks stands here.
ghost use Rattle.std.specs.Prelude.{◌≡◌};
ghost use Rattle.utf8.specs.Behind.{behind, Open};
ghost use Rattle.theorems.specs.Simple.Grammar.{mark_of};
ghost use Rattle.theorems.specs.Simple.Marks.{yUm, sUn, yUz, sUnUz, lAr, nUz, DUr, cAsInA, yDU, ysA, ymUs, yken};
ghost use Rattle.theorems.specs.Simple.Pieces.{trace_of};
ghost use Rattle.keys.specs.Search.{found};
ghost use Rattle.keys.specs.Seen.{Sees};
ghost use Rattle.keys.specs.Passed.{passes};
ghost use Rattle.keys.specs.Ends.{ending_in};
ghost use Rattle.marks.specs.Reach.{reach};

use crate::marked::{Mark, Marked};
use crate::{marked, tables};
use keys::among::{Key, find_among_b};
use keys::ends;
use keys::joint::mark_suffix_with_optional_consonant;
use keys::seen::Seen;
use utf8::cursor::Cursor;
use utf8::{characters, step};
use vowels::vowel::is_vowel;

// The literals that yken is made of.
const KEN: [u8; 3] = *b"ken";

const Y: [u8; 1] = *b"y";

pub fn mark_yUm(w: &[u8], s: Seen) -> Option<Marked>
    requires { Sees w.now s }
    ensures { result ≡ reach w.now s.c (trace_of yUm (behind w.now s.c)) }
{
    if s.ending.last != 0x6D {
        return None;
    }
    let Some(key) = find_among_b(w, s, &tables::A_12) else {
        return None; // adam
    };
    let p = mark_suffix_with_optional_consonant(w, key.before, 0x79);
    marked::kept_in_harmony(w, s.c, Some(Mark::YUm), p)
}

pub fn mark_sUn(w: &[u8], s: Seen) -> Option<Marked>
    requires { Sees w.now s }
    ensures { result ≡ reach w.now s.c (trace_of sUn (behind w.now s.c)) }
{
    if s.ending.last != 0x6E {
        return None;
    }
    let Some(key) = find_among_b(w, s, &tables::A_13) else {
        return None; // insan
    };
    marked::in_harmony(w, s.c, Some(Mark::SUn), key.before.cursor)
}

pub fn mark_yUz(w: &[u8], s: Seen) -> Option<Marked>
    requires { Sees w.now s }
    ensures { result ≡ reach w.now s.c (trace_of yUz (behind w.now s.c)) }
{
    if s.ending.last != 0x7A {
        return None;
    }
    let Some(key) = find_among_b(w, s, &tables::A_14) else {
        return None; // kaz
    };
    let p = mark_suffix_with_optional_consonant(w, key.before, 0x79);
    marked::kept_in_harmony(w, s.c, Some(Mark::YUz), p)
}

pub fn mark_sUnUz(w: &[u8], s: Seen) -> Option<Marked>
    requires { Sees w.now s }
    ensures { result ≡ reach w.now s.c (trace_of sUnUz (behind w.now s.c)) }
{
    if s.ending.last != 0x7A {
        return None;
    }
    let Some(key) = find_among_b(w, s, &tables::A_15) else {
        return None; // deniz
    };
    marked::kept(s.c, Some(Mark::SUnUz), Some(key.before.cursor))
}

pub fn mark_lAr(w: &[u8], s: Seen) -> Option<Marked>
    requires { Sees w.now s }
    ensures { result ≡ reach w.now s.c (trace_of lAr (behind w.now s.c)) }
{
    let c = s.c;
    if s.ending.last != 0x72 {
        return None;
    }
    let Some(key) = find_among_b(w, s, &tables::A_16) else {
        return None; // bahar
    };
    marked::in_harmony(w, c, Some(Mark::LAr), key.before.cursor)
}

pub fn mark_nUz(w: &[u8], s: Seen) -> Option<Marked>
    requires { Sees w.now s }
    ensures { result ≡ reach w.now s.c (trace_of nUz (behind w.now s.c)) }
{
    if s.ending.last != 0x7A {
        return None;
    }
    let Some(key) = find_among_b(w, s, &tables::A_17) else {
        return None; // yaz
    };
    marked::in_harmony(w, s.c, Some(Mark::NUz), key.before.cursor)
}

pub fn mark_DUr(w: &[u8], s: Seen) -> Option<Marked>
    requires { Sees w.now s }
    ensures { result ≡ reach w.now s.c (trace_of DUr (behind w.now s.c)) }
{
    if s.ending.last != 0x72 {
        return None;
    }
    let Some(key) = find_among_b(w, s, &tables::A_18) else {
        return None; // kar
    };
    marked::in_harmony(w, s.c, Some(Mark::DUr), key.before.cursor)
}

pub fn mark_cAsInA(w: &[u8], s: Seen) -> Option<Marked>
    requires { Sees w.now s }
    ensures { result ≡ reach w.now s.c (trace_of cAsInA (behind w.now s.c)) }
{
    if !ends::is_A(s.ending.last) {
        return None;
    }
    let Some(key) = find_among_b(w, s, &tables::A_19) else {
        return None; // masa
    };
    marked::kept(s.c, Some(Mark::CAsInA), Some(key.before.cursor))
}

// A_20's 32 keys by the last letter: only those that end in it are searched.
fn find_yDU(w: &[u8], s: Seen) -> Option<Key>
    requires { Sees w.now s }
    ensures { result ≡ found (ending_in s.ending.last yDU.keys) w.now s.c }
{
    let last = s.ending.last;
    match last {
        0x69 => find_among_b(w, s, &tables::A_20[0..2]),
        0x6B => find_among_b(w, s, &tables::A_20[2..10]),
        0x6D => find_among_b(w, s, &tables::A_20[10..18]),
        0x6E => find_among_b(w, s, &tables::A_20[18..26]),
        0x75 => find_among_b(w, s, &tables::A_20[26..28]),
        0x131 => find_among_b(w, s, &tables::A_20[28..30]),
        0xFC => find_among_b(w, s, &tables::A_20[30..32]),
        _ => None,
    }
}

pub fn mark_yDU(w: &[u8], s: Seen) -> Option<Marked>
    requires { Sees w.now s }
    ensures { result ≡ reach w.now s.c (trace_of yDU (behind w.now s.c)) }
{
    let Some(key) = find_yDU(w, s) else {
        return None;
    };
    let p = mark_suffix_with_optional_consonant(w, key.before, 0x79);
    marked::kept_in_harmony(w, s.c, Some(Mark::YDU), p)
}

pub fn mark_ysA(w: &[u8], s: Seen) -> Option<Marked>
    requires { Sees w.now s }
    ensures { result ≡ reach w.now s.c (trace_of ysA (behind w.now s.c)) }
{
    if !(ends::is_A(s.ending.last) | ends::is_kmn(s.ending.last)) {
        return None;
    }
    let Some(key) = find_among_b(w, s, &tables::A_21) else {
        return None; // araba
    };
    let p = mark_suffix_with_optional_consonant(w, key.before, 0x79);
    marked::kept(s.c, Some(Mark::YsA), p)
}

pub fn mark_ymUs_(w: &[u8], s: Seen) -> Option<Marked>
    requires { Sees w.now s }
    ensures { result ≡ reach w.now s.c (trace_of ymUs (behind w.now s.c)) }
{
    if s.ending.last != 0x15F {
        return None;
    }
    let Some(key) = find_among_b(w, s, &tables::A_22) else {
        return None; // kış
    };
    let p = mark_suffix_with_optional_consonant(w, key.before, 0x79);
    marked::kept_in_harmony(w, s.c, Some(Mark::YmUs), p)
}

// Back over `ken`, a y if one stands before it, and one character more, on one lent record. The second character before `ken` must be a vowel:
// after a y it is the one just passed, else the next one.
fn back_over_yken(w: &[u8], c: Cursor) -> Option<usize>
    requires { Open w.now c }
    ensures { result ≡ passes w.now c (mark_of yken (behind w.now c)) }
{
    let k = lent::back_over(w, &KEN, &Y, c);
    if !k.literal {
        return None;
    }
    let Some(next) = k.next else {
        return None;
    };
    let here = k.here.cursor;
    if k.joined {
        let v = characters::char_at(w, next.cursor, here - next.cursor);
        if !is_vowel(v) {
            return None;
        }
        return Some(here);
    }
    let Some(p) = step::previous_char(w, next) else {
        return None;
    };
    if !is_vowel(p.ch) {
        return None;
    }
    Some(here)
}

pub fn mark_yken(w: &[u8], s: Seen) -> Option<Marked>
    requires { Sees w.now s }
    ensures { result ≡ reach w.now s.c (trace_of yken (behind w.now s.c)) }
{
    if s.ending.last != 0x6E {
        return None;
    }
    marked::kept(s.c, Some(Mark::Yken), back_over_yken(w, s.c))
}
