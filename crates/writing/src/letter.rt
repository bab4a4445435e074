// A letter of one byte or two in UTF-8, as every letter of Turkish is, and its bytes written at a place of a lent output.
ghost use Rattle.std.specs.Prelude.{◌≡◌, ◌+◌, ◌≤◌, ◌<◌, length};
ghost use Rattle.writing.specs.Put.{put};
ghost use Rattle.writing.specs.Letter.{letter_of, bytes_of};

use crate::put;

// Its bytes.
#[derive(Clone, Copy)]
pub enum Letter {
    One(u8),
    Two(u8, u8),
}

impl Letter {
    // The letter that a code point is.
    pub fn of(ch: u32) -> Letter
        requires { ch < 0x800 }
        ensures { result ≡ letter_of ch }
    {
        if ch < 0x80 {
            return Letter::One(ch as u8);
        }
        Letter::Two((0xC0 + ch / 0x40) as u8, (0x80 + ch % 0x40) as u8)
    }

    // Writes it at place `at`, and gives the place after it.
    pub fn put(self, out: &mut [u8], at: usize) -> usize
        requires { at + length (bytes_of self) ≤ length out.old }
        ensures value { result ≡ at + length (bytes_of self) }
        ensures out_after { out.new ≡ put at (bytes_of self) out.old }
    {
        match self {
            Letter::One(a) => put::put_byte(out, at, a),
            Letter::Two(a, b) => {
                let next = put::put_byte(out, at, a);
                put::put_byte(out, next, b)
            }
        }
    }
}
