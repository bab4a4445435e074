// The UTF-8 check, by neighbours: each byte is held to the three before it, or, where no character has more than two, to the one before it
// (`walk`, `short`). Every byte of a part gets the same tests, whatever the others gave, so that many can be looked at in one step.
ghost use Rattle.std.specs.Prelude.{◌≡◌, true, ◌≤◌, ◌<◌, length, drop};
ghost use Rattle.std.specs.List.{prefix_len};
ghost use Rattle.encoding.specs.Encoding.{continuation};
ghost use Rattle.encoding.specs.Validity.{lead, is_text};
ghost use Rattle.encoding.specs.Neighbours.{owed, follows, text_after};
ghost use Rattle.encoding.specs.Parts.{boundary};

use crate::{continuation, plain, short, walk};

// Whether a character begins with the byte.
fn begins(x: u8) -> bool
    ensures { result ≡ (lead x).ok }
{
    (x < 0x80) | ((0xC2 <= x) & (x < 0xF5))
}

// The least byte that may follow a, where one must.
fn lowest(a: u8) -> u8
    ensures { result ≡ (lead a).low }
{
    match a {
        0xE0 => 0xA0,
        0xF0 => 0x90,
        _ => 0x80,
    }
}

// The greatest byte that may follow a, where one must.
fn highest(a: u8) -> u8
    ensures { result ≡ (lead a).high }
{
    match a {
        0xED => 0x9F,
        0xF4 => 0x8F,
        _ => 0xBF,
    }
}

// Whether the three bytes before, the nearest first, leave one of their character due. They stand as three parameters here and below, as in the
// definitions that the contracts cite, `owed`, `follows` and `text_after`.
fn is_owed(a: u8, b: u8, c: u8) -> bool
    ensures { result ≡ owed a b c }
{
    (0xC0 <= a) | (0xE0 <= b) | (0xF0 <= c)
}

// Whether x may follow those three.
fn may_follow(a: u8, b: u8, c: u8, x: u8) -> bool
    ensures { result ≡ follows a b c x }
{
    let due = is_owed(a, b, c);
    (due & ((lowest(a) <= x) & (x <= highest(a)))) | (!due & begins(x))
}

// Whether each byte may follow the ones before it, and none is due at the end.
fn each_follows(w: &[u8]) -> bool
    ensures { result ≡ text_after 0 0 0 w.now }
{
    let mut a = 0;
    let mut b = 0;
    let mut c = 0;
    let mut ok = true;
    for &x in w {
        ok &= may_follow(a, b, c, x);
        c = b;
        b = a;
        a = x;
    }
    ok & !is_owed(a, b, c)
}

// How many bytes at the front go on with a character.
fn continuations(w: &[u8]) -> usize
    ensures { result ≡ prefix_len continuation w.now }
{
    w.iter()
        .take_while(|x| continuation::is_continuation(**x))
        .count()
}

// How long the next part is: 128 bytes, and the bytes there that go on with a character.
fn part_len(w: &[u8]) -> usize
    requires { 0 < length w.now }
    ensures lower_bound { 0 < result }
    ensures upper_bound { result ≤ length w.now }
    ensures w_value { boundary (drop result w.now) ≡ true }
{
    if w.len() <= 128 {
        return w.len();
    }
    128 + continuations(&w[128..])
}

// What stands behind the plain run at the front.
fn past_run(w: &[u8]) -> &[u8]
    ensures upper_bound { length result.now ≤ length w.now }
    ensures w_value { is_text result.now ≡ is_text w.now }
{
    let (_, more) = w.split_at(plain::run_end(w, 0));
    more
}

// Whether a few bytes are UTF-8. Most words have characters of one and two bytes only, for which fewer tests do.
fn few_are_utf8(w: &[u8]) -> bool
    ensures { result ≡ is_text w.now }
{
    if short::each_follows(w) {
        return true;
    }
    each_follows(w)
}

// Whether the bytes are UTF-8: shortest forms only, no surrogates, at most U+10FFFF. Takes any slice. A few bytes are tested one by one; of
// more, characters of one and two bytes are gone over first, and from where that fails on parts are tested, with a plain run skipped after
// each.
pub fn is_utf8(w: &[u8]) -> bool
    ensures { result ≡ is_text w.now }
{
    if w.len() <= 8 {
        return few_are_utf8(w);
    }
    let mut rest = walk::rest(w);
    while !rest.is_empty() {
        let (part, more) = rest.split_at(part_len(rest));
        if !each_follows(part) {
            return false;
        }
        rest = past_run(more);
    }
    true
}
