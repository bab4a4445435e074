// The key search (snowball_env.rs, `find_among_b`) over a table of keys, each from its end and filled up with 0 to the table's width.
ghost use Rattle.std.specs.Prelude.{◌≡◌, get_or};
ghost use Rattle.utf8.specs.Behind.{Open};
ghost use Rattle.keys.specs.Keys.{up_to_zero, rows};
ghost use Rattle.keys.specs.Seen.{Sees};
ghost use Rattle.keys.specs.Search.{over, found, ends_in_of};

use crate::seen::{Seen, Three};
use utf8::characters;
use utf8::cursor::Cursor;

// A key that ends the text: its place, from 0 in the table's order, and the record before it.
#[derive(Clone, Copy)]
pub struct Key {
    pub place: usize,
    pub before: Cursor,
}

// Back over the letters of a key.
fn key_rest(w: &[u8], c: Cursor, letters: &[u32]) -> Option<usize>
    requires { Open w.now c }
    ensures { result ≡ over w.now c (up_to_zero letters.now) }
{
    let low = c.limit_backward;
    let part = &w[low..];
    let mut at = c.cursor - low;
    for &letter in letters {
        if letter == 0 {
            return Some(low + at);
        }
        let p = characters::read_back(part, at);
        if p.ch != letter {
            return None;
        }
        at = p.at;
    }
    Some(low + at)
}

// The letter at place j of a key, 0 behind a key as long as the table is wide.
fn letter_of(key: &[u32], j: usize) -> u32
    ensures { result ≡ get_or key.now j 0 }
{
    if key.len() <= j {
        return 0;
    }
    key[j]
}

// Whether the last three letters of a key, 0 behind a shorter one, are those seen. No early exit: for a constant table the compiler folds the
// search into tests of these letters.
fn ends_in(s: Three, a: u32, b: u32, d: u32) -> bool
    ensures { result ≡ ends_in_of s a b d }
{
    (a == 0) | ((a == s.last) & ((b == 0) | ((b == s.second) & ((d == 0) | (d == s.third)))))
}

// Back over a key: its last three letters are held to the three characters seen.
fn key_before(w: &[u8], s: Seen, key: &[u32]) -> Option<usize>
    requires { Sees w.now s }
    ensures { result ≡ over w.now s.c (up_to_zero key.now) }
{
    let a = letter_of(key, 0);
    let b = letter_of(key, 1);
    let d = letter_of(key, 2);
    if !ends_in(s.ending, a, b, d) {
        return None;
    }
    if a == 0 {
        return Some(s.c.cursor);
    }
    if b == 0 {
        return Some(s.ending.one);
    }
    if d == 0 {
        return Some(s.ending.two);
    }
    if key.len() <= 3 {
        return Some(s.ending.three);
    }
    key_rest(w, s.c.moved_to(s.ending.three), &key[3..])
}

// The first key of the table that ends the text before the cursor. Inlined, so that a constant table is folded into the marks.
#[inline(always)]
pub fn find_among_b<const N: usize>(w: &[u8], s: Seen, keys: &[[u32; N]]) -> Option<Key>
    requires { Sees w.now s }
    ensures { result ≡ found (rows keys.now) w.now s.c }
{
    for (i, key) in keys.iter().enumerate() {
        if let Some(at) = key_before(w, s, key) {
            return Some(Key {
                place: i,
                before: s.c.moved_to(at),
            });
        }
    }
    None
}
