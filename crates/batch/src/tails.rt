// The tails in a slice: where each ends, and what the refusals ask of them, in one walk over the slice.
ghost use Rattle.std.specs.Prelude.{◌≡◌, ◌≤◌, length};
ghost use Rattle.turkish.specs.Letters.{lf, has};
ghost use Rattle.batches.specs.BatchCalls.{tails_in};
ghost use Rattle.batch.specs.Tails.{block, leads, line_of, line_at, tails_of};

use encoding::continuation;
use writing::put;

// The bytes that are passed in one step.
const BLOCK: usize = 16;

// The fewest characters of a tail.
const LEAST: usize = 16;

// The most tails.
pub(crate) const TAILS: usize = 64;

// A line of the slice: the place where it ends, and how many bytes in it begin a character.
#[derive(Clone, Copy)]
pub struct Line {
    pub end: usize,
    pub chars: usize,
}

// The tails of a slice: how many there are, the bytes of the longest, and whether some has fewer than 16 characters.
#[derive(Clone, Copy)]
pub struct Survey {
    pub count: usize,
    pub longest: usize,
    pub short: bool,
}

// And the places where the first 64 end, zeros where there are fewer. Memory is fixed here, and the count goes on past 64, which is what the
// refusal asks; so the array stands beside it.
#[derive(Clone, Copy)]
pub struct Tails {
    pub survey: Survey,
    pub ends: [usize; TAILS],
}

// Whether some bytes have a line feed. Each byte is looked at, so that many can be in one step.
fn has_lf(part: &[u8]) -> bool
    ensures { result ≡ has part.now lf }
{
    let mut found = false;
    for &b in part {
        found = found | (b == put::LF);
    }
    found
}

// How many of a block's bytes begin a character. A byte counts them, so that many can be counted in one step.
fn count_leads(part: &[u8]) -> u8
    requires { length part.now ≤ block }
    ensures { result ≡ leads part.now }
{
    let mut k = 0u8;
    for &b in part {
        k += u8::from(!continuation::is_continuation(b));
    }
    k
}

// How many bytes stand before the first line feed.
fn line_length(rest: &[u8]) -> usize
    ensures { result ≡ length (line_of rest.now) }
{
    for i in 0..rest.len() {
        if rest[i] == put::LF {
            return i;
        }
    }
    rest.len()
}

// The line that begins at a place: on by 16 bytes as long as none is a line feed, and then by the fewer that are left before one. The loop keeps the
// place, since that is where those begin, which an iterator over blocks would not tell.
fn line_at(w: &[u8], from: usize) -> Line
    requires { from ≤ length w.now }
    ensures { result ≡ line_at w.now from }
{
    let mut at = from;
    let mut chars = 0;
    while BLOCK <= w.len() - at && !has_lf(&w[at..at + BLOCK]) {
        chars += count_leads(&w[at..at + BLOCK]) as usize;
        at += BLOCK;
    }
    let rest = &w[at..];
    let n = line_length(rest);
    Line {
        end: at + n,
        chars: chars + count_leads(&rest[..n]) as usize,
    }
}

// The tails of a slice, all of them looked at. A turn takes a line, whose length the line itself tells.
pub(crate) fn find_tails(slice: &[u8]) -> Tails
    ensures { result ≡ tails_of (tails_in slice.now) }
{
    let mut ends = [0usize; TAILS];
    let mut count = 0;
    let mut longest = 0;
    let mut short = false;
    let mut at = 0;
    while at < slice.len() {
        let line = line_at(slice, at);
        let end = line.end;
        longest = longest.max(end - at);
        short = short | (line.chars < LEAST);
        if count < TAILS {
            ends[count] = end;
        }
        count += 1;
        at = end + 1;
    }
    Tails {
        survey: Survey {
            count,
            longest,
            short,
        },
        ends,
    }
}
