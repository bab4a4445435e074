// The UTF-8 check for characters of one and two bytes: each byte is held to the one before it.
ghost use Rattle.std.specs.Prelude.{◌≡◌};
ghost use Rattle.encoding.specs.Neighbours.{short_begins, short_follows, short_after};

use crate::continuation;

// Whether a character of one or two bytes begins with the byte. It differs from `begins` in `validity` by a number, but each gives the answer
// of a definition of its own, and one for both would be no plainer.
pub(crate) fn begins(x: u8) -> bool
    ensures { result ≡ short_begins x }
{
    (x < 0x80) | ((0xC2 <= x) & (x < 0xE0))
}

// Whether x may follow a where no character has more than two bytes.
pub(crate) fn may_follow(a: u8, x: u8) -> bool
    ensures { result ≡ short_follows a x }
{
    let due = 0xC0 <= a;
    (due & continuation::is_continuation(x)) | (!due & begins(x))
}

// Whether each byte may follow the one before it, and none is due at the end. `validity` walks so with three bytes before: the two share the
// loop alone, and a trait for both, with a ghost member for each method, would be longer than they are.
pub(crate) fn each_follows(w: &[u8]) -> bool
    ensures { result ≡ short_after 0 w.now }
{
    let mut a = 0;
    let mut ok = true;
    for &x in w {
        ok &= may_follow(a, x);
        a = x;
    }
    ok & (a < 0xC0)
}
