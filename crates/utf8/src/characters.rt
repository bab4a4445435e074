// The character that ends, and the one that begins, at a place of a word. Total on any bytes: nothing here asks for valid UTF-8.
ghost use Rattle.std.specs.Prelude.{◌≡◌, ℕ, Bool, [], ◌∷◌, ◌+◌, ◌%◌, ◌≤◌, ◌<◌, max, length};
ghost use Rattle.encoding.specs.Encoding.{decode};
ghost use Rattle.utf8.specs.Behind.{read_back_of};
ghost use Rattle.utf8.specs.Characters.{width, last_width_of, first_width_of, char_at};

use encoding::continuation;

// The bytes of a character: one, and one more for each of the next three that goes on with it, up to the first that does not. Those are asked
// for in turn, so that no byte past the character is read.
fn width<F: Fn(usize) -> bool>(goes_on: F) -> usize
    requires { (k : ℕ) → 0 < k → k ≤ 3 → F.pre goes_on k }
    ensures { (t : ℕ → Bool) → ((k : ℕ) (b : Bool) → F.post goes_on k b → b ≡ t k) → result ≡ width (t 1) (t 2) (t 3) }
{
    if !goes_on(1) {
        return 1;
    }
    if !goes_on(2) {
        return 2;
    }
    if !goes_on(3) {
        return 3;
    }
    4
}

// The bytes of the character that ends at place c: going back, the k-th byte goes on with one that begins before it.
pub fn last_width(w: &[u8], c: usize) -> usize
    requires { c ≤ length w.now }
    ensures { result ≡ last_width_of w.now c }
{
    width(|k| k < c && continuation::is_continuation(w[c - k]))
}

// The bytes of the character that begins at place c; past the word's end no byte goes on.
pub(crate) fn first_width(w: &[u8], c: usize) -> usize
    requires { c ≤ length w.now }
    ensures { result ≡ first_width_of w.now c }
{
    width(|k| c + k < w.len() && continuation::is_continuation(w[c + k]))
}

// A byte's lowest bits, wide enough to be put together.
fn low_bits(b: u8, modulus: u8) -> u32
    requires { 0 < modulus }
    ensures value { result ≡ b % modulus }
    ensures upper_bound { result < modulus }
{
    (b % modulus) as u32
}

// What several bytes put together stand for: never an ASCII character.
fn above_ascii(v: u32) -> u32
    ensures { result ≡ max 0x80 v }
{
    if v < 0x80 {
        return 0x80;
    }
    v
}

// The characters of two, three and four bytes. Each is one line of `decode`; one function for all three would go over the bytes in a loop, which is
// no plainer and stands in the way of a character of two bytes.
fn decode_two(a: u8, b: u8) -> u32
    ensures { result ≡ decode (a ∷ b ∷ []) }
{
    above_ascii(low_bits(a, 0x20) * 0x40 + low_bits(b, 0x40))
}

fn decode_three(a: u8, b: u8, c: u8) -> u32
    ensures { result ≡ decode (a ∷ b ∷ c ∷ []) }
{
    above_ascii(low_bits(a, 0x10) * 0x1000 + low_bits(b, 0x40) * 0x40 + low_bits(c, 0x40))
}

fn decode_four(a: u8, b: u8, c: u8, d: u8) -> u32
    ensures { result ≡ decode (a ∷ b ∷ c ∷ d ∷ []) }
{
    above_ascii(
        low_bits(a, 0x08) * 0x40000
            + low_bits(b, 0x40) * 0x1000
            + low_bits(c, 0x40) * 0x40
            + low_bits(d, 0x40),
    )
}

// The character whose n bytes begin at place i.
pub fn char_at(w: &[u8], i: usize, n: usize) -> u32
    requires { (0 < n) × (n ≤ 4) × (i + n ≤ length w.now) }
    ensures { result ≡ char_at w.now i n }
{
    if n <= 1 {
        return w[i] as u32;
    }
    if n <= 2 {
        return decode_two(w[i], w[i + 1]);
    }
    if n <= 3 {
        return decode_three(w[i], w[i + 1], w[i + 2]);
    }
    decode_four(w[i], w[i + 1], w[i + 2], w[i + 3])
}

// A character and the place where it begins. No Option: every caller compares ch as it does any character, and 0 is no key's letter and no vowel.
#[derive(Clone, Copy)]
pub struct Read {
    pub ch: u32,
    pub at: usize,
}

// The character that ends at place c, 0 where none does, and where it begins. One byte or two are read at once.
pub fn read_back(w: &[u8], c: usize) -> Read
    requires { c ≤ length w.now }
    ensures { result ≡ read_back_of w.now c }
{
    if c == 0 {
        return Read { ch: 0, at: 0 };
    }
    let b = w[c - 1];
    if b < 0x80 {
        return Read {
            ch: b as u32,
            at: c - 1,
        };
    }
    if 2 <= c {
        let a = w[c - 2];
        if continuation::is_continuation(b) & !continuation::is_continuation(a) {
            return Read {
                ch: decode_two(a, b),
                at: c - 2,
            };
        }
    }
    let n = last_width(w, c);
    let at = c - n;
    Read {
        ch: char_at(w, at, n),
        at,
    }
}

// The same, so short that it can stand in its caller: a character of one byte or two is read here, any other by a call. So its tests are those of
// `read_back` a second time.
pub fn read_short_back(w: &[u8], c: usize) -> Read
    requires { c ≤ length w.now }
    ensures { result ≡ read_back_of w.now c }
{
    if 2 <= c {
        let b = w[c - 1];
        if b < 0x80 {
            return Read {
                ch: b as u32,
                at: c - 1,
            };
        }
        let a = w[c - 2];
        if continuation::is_continuation(b) & !continuation::is_continuation(a) {
            return Read {
                ch: decode_two(a, b),
                at: c - 2,
            };
        }
    }
    read_back(w, c)
}
