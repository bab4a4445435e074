// The line read so far, of which no more is held than its refusal needs.
ghost use Rattle.std.specs.Prelude.{◌≡◌, []};
ghost use Rattle.listing.specs.Feed.{hold};

use refusals::refusal;
use std::marker::Model;

// The bytes held of a line that is not ended: one more than the limit, since a longer line is refused whatever follows.
pub const HELD: usize = refusal::LIMIT + 1;

// The first `len` of these bytes are held; contracts see the list of them.
#[derive(Drop)]
pub struct Held {
    bytes: [u8; HELD],
    len: usize,
}

impl Model for Held {
    ghost use Rattle.std.specs.Prelude.{ℕ, List, ◌≤◌, take};
    ghost use Rattle.listing.specs.Feed.{most};

    ghost Value = { List ℕ };

    ghost view = { λ s. take s.len s.bytes };

    ghost invariant = { λ s. s.len ≤ most };
}

impl Held {
    // No line begun.
    pub fn new() -> Held
        ensures { result ≡ [] }
    {
        Held {
            bytes: [0; HELD],
            len: 0,
        }
    }

    // The bytes held.
    pub fn as_slice(&self) -> &[u8]
        ensures { result.now ≡ self.now }
    {
        &self.bytes[..self.len]
    }

    // One byte more of the line, where it is still held.
    pub fn hold(&mut self, b: u8)
        ensures { self.new ≡ hold self.old b }
    {
        if self.len < HELD {
            self.bytes[self.len] = b;
            self.len += 1;
        }
    }

    // The line is ended, and none is begun.
    pub fn clear(&mut self)
        ensures { self.new ≡ [] }
    {
        self.len = 0;
    }
}
