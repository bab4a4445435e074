// How far a word has characters of one and two bytes only, by many bytes in one step and with plain runs skipped. At which place it stops
// short of the word's end is for speed alone: the contracts say what holds at any place that it may answer.
ghost use Rattle.std.specs.Prelude.{◌≡◌, true, ◌+◌, ◌-◌, ◌≤◌, ◌<◌, length, drop, IfSome};
ghost use Rattle.encoding.specs.Validity.{is_text};
ghost use Rattle.encoding.specs.PlainRuns.{word_bytes};
ghost use Rattle.encoding.specs.Walked.{byte_before, owed_at, short_next, walked};

use crate::{plain, short};

// Whether each of N bytes from a place on may follow the one before it. That one is read anew, so that no byte waits for another:
// by index, as each is read twice, which two slices zipped would say no plainer. Left out of line, as the compiler else does, it made words of
// 10 to 64 bytes take 1.4 to 1.6 times as long.
#[inline(always)]
fn all_follow<const N: usize>(w: &[u8], from: usize) -> bool
    requires from_nonzero { 0 < from }
    requires in_bounds { from + N ≤ length w.now }
    ensures { result ≡ short_next N (byte_before w.now from) (drop from w.now) }
{
    let mut ok = true;
    for i in from..from + N {
        ok &= short::may_follow(w[i - 1], w[i]);
    }
    ok
}

// A word walked over up to a place behind its first byte: what stands there are characters of one and two bytes, of which the last may be
// unfinished.
#[derive(Clone, Copy)]
struct Walk<'a> {
    word: &'a [u8],
    at: usize,
    ghost begun: { 0 < at },
    ghost within: { at ≤ length word.now },
    ghost over: { walked word.now at ≡ true },
}

impl<'a> Walk<'a> {
    // Past the plain run at the front, or past the first byte; none where that begins no character of one or two bytes.
    fn begin(word: &'a [u8]) -> Option<Walk<'a>>
        requires { 0 < length word.now }
        ensures { IfSome result (λ walk. walk.word.now ≡ word.now) }
    {
        let run = plain::run_end(word, 0);
        if 0 < run {
            return Some(Walk { word, at: run });
        }
        if short::begins(word[0]) {
            return Some(Walk { word, at: 1 });
        }
        None
    }

    // How many bytes are left.
    fn left(self) -> usize
        ensures { result ≡ length self.entry.word.now - self.entry.at }
    {
        self.word.len() - self.at
    }

    // Whether the byte before the place leaves one of its character due, where no character has more than two.
    fn is_owed(self) -> bool
        ensures { result ≡ owed_at self.entry.word.now self.entry.at }
    {
        0xC0 <= self.word[self.at - 1]
    }

    // Past a plain run, which is tried only where no byte is owed.
    fn skip(self) -> Walk<'a>
        ensures lower_bound { self.entry.at ≤ result.at }
        ensures word_value { result.word.now ≡ self.entry.word.now }
    {
        if self.is_owed() {
            return self;
        }
        Walk {
            word: self.word,
            at: plain::run_end(self.word, self.at),
        }
    }

    // On by N bytes at a time and the plain run behind them, while so many are left and each may follow. N is a parameter of the type, so that
    // the compiler knows it and tests these bytes in one step.
    fn steps<const N: usize>(self) -> Walk<'a>
        requires { 0 < N }
        ensures { result.word.now ≡ self.entry.word.now }
    {
        let mut walk = self;
        while N <= walk.left() && all_follow::<N>(walk.word, walk.at) {
            walk = Walk {
                word: walk.word,
                at: walk.at + N,
            }
            .skip();
        }
        walk
    }

    // To the end, where the last N bytes may follow, some of which were tested before.
    fn last<const N: usize>(self) -> Walk<'a>
        requires long { N < length self.word.now }
        requires few { length self.word.now ≤ self.at + N }
        ensures { result.word.now ≡ self.entry.word.now }
    {
        let end = self.word.len();
        if all_follow::<N>(self.word, end - N) {
            return Walk {
                word: self.word,
                at: end,
            };
        }
        self
    }

    // On by N bytes at a time. Where fewer are left the last N of the word are tested, or its last FEW where that is enough.
    fn on_by<const N: usize, const FEW: usize>(self) -> Walk<'a>
        requires nonzero { 0 < N }
        requires few_le_n { FEW ≤ N }
        requires long { N < length self.word.now }
        ensures { result.word.now ≡ self.entry.word.now }
    {
        let walk = self.steps::<N>();
        let left = walk.left();
        if left == 0 || N <= left {
            return walk;
        }
        if left <= FEW {
            return walk.last::<FEW>();
        }
        walk.last::<N>()
    }

    // What is left from the place on, or from the start of the character that is not over there.
    fn rest(self) -> &'a [u8]
        ensures { is_text result.now ≡ is_text self.entry.word.now }
    {
        if self.is_owed() {
            return &self.word[self.at - 1..];
        }
        &self.word[self.at..]
    }
}

// A word's rest, before which stand characters of one and two bytes only: its check is the check of the word.
pub(crate) fn rest(w: &[u8]) -> &[u8]
    requires { word_bytes < length w.now }
    ensures { is_text result.now ≡ is_text w.now }
{
    let Some(walk) = Walk::begin(w) else {
        return w;
    };
    if 64 < w.len() {
        return walk.on_by::<64, 32>().rest();
    }
    walk.on_by::<8, 8>().rest()
}
