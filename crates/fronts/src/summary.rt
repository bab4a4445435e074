// The summary of a front, built a character at a time. The step is offered to no host: that gets the batch alone.
ghost use Rattle.std.specs.Prelude.{◌≡◌, true};
ghost use Rattle.turkish.specs.Calls.{accepted};
ghost use Rattle.batches.specs.Summary.{summary, raised, added};
ghost use Rattle.fronts.specs.Counted.{Countable, Counted};

use turkish::summary::Summary;
use utf8::cursor::Cursor;
use utf8::step;
use vowels::vowel::Vowel;

// The counts with that of the vowel of a number one greater; 0 is no vowel's.
fn raise(counts: [usize; 8], number: usize) -> [usize; 8]
    requires { Countable number counts }
    ensures { result ≡ raised number counts }
{
    if number == 0 {
        return counts;
    }
    let mut more = counts;
    more[number - 1] += 1;
    more
}

// The summary with one character more at the front's end: a vowel is the last one now, and that which was is counted.
fn add(s: Summary, ch: u32) -> Summary
    requires { Counted s }
    ensures { result ≡ added ch s }
{
    let Some(v) = Vowel::of(ch) else {
        return s;
    };
    Summary {
        last: v.number,
        counts: raise(s.counts, s.last),
    }
}

// The summary of an accepted front.
pub fn summary_of(front: &[u8]) -> Summary
    requires { accepted front.now ≡ true }
    ensures { result ≡ summary front.now }
{
    let mut s = Summary::EMPTY;
    let mut c = Cursor {
        cursor: 0,
        limit: front.len(),
        limit_backward: 0,
    };
    while let Some(p) = step::next_char(front, c) {
        s = add(s, p.ch);
        c = p.next;
    }
    s
}
