// A cursor with the three characters before it, read once: most marks fail by these alone.
ghost use Rattle.std.specs.Prelude.{◌≡◌};
ghost use Rattle.utf8.specs.Behind.{Open};
ghost use Rattle.keys.specs.Seen.{three_at, seen_at};

use utf8::characters;
use utf8::cursor::Cursor;

// The last character before a record, the one before that and the third (0 where there is none), and the place before each.
#[derive(Clone, Copy)]
pub struct Three {
    pub one: usize,
    pub two: usize,
    pub three: usize,
    pub last: u32,
    pub second: u32,
    pub third: u32,
}

// The record, and what stands before it.
#[derive(Clone, Copy)]
pub struct Seen {
    pub c: Cursor,
    pub ending: Three,
}

// The three read one after the other. It is called from two places, so that the compiler leaves it where it is. The record goes past it: copied
// into its answer it would come back by moves that wait for the stores before them.
fn read_three(w: &[u8], c: Cursor) -> Three
    requires { Open w.now c }
    ensures { result ≡ three_at w.now c }
{
    let low = c.limit_backward;
    let part = &w[low..];
    let a = characters::read_short_back(part, c.cursor - low);
    let b = characters::read_short_back(part, a.at);
    let d = characters::read_short_back(part, b.at);
    Three {
        one: low + a.at,
        two: low + b.at,
        three: low + d.at,
        last: a.ch,
        second: b.ch,
        third: d.ch,
    }
}

// What is seen from a record; three bytes of ASCII, as many endings have, are read at one go.
pub fn look_back(w: &[u8], c: Cursor) -> Seen
    requires { Open w.now c }
    ensures { result ≡ seen_at w.now c }
{
    let at = c.cursor;
    if at - c.limit_backward < 3 {
        return Seen {
            c,
            ending: read_three(w, c),
        };
    }
    let x = w[at - 1];
    let y = w[at - 2];
    let z = w[at - 3];
    if (x < 0x80) & (y < 0x80) & (z < 0x80) {
        return Seen {
            c,
            ending: Three {
                one: at - 1,
                two: at - 2,
                three: at - 3,
                last: x as u32,
                second: y as u32,
                third: z as u32,
            },
        };
    }
    Seen {
        c,
        ending: read_three(w, c),
    }
}
