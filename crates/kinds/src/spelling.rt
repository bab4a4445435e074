// The pieces as text: a line each at the front of a lent buffer.
ghost use Rattle.std.specs.Prelude.{◌≡◌, map, ◌+◌, ◌≤◌, ◌<◌, length, take};
ghost use Rattle.turkish.specs.Calls.{written};
ghost use Rattle.turkish.specs.PieceCalls.{told, piece_line, text_of};
ghost use Rattle.writing.specs.Put.{put};
ghost use Rattle.kinds.specs.Entries.{Inside};

use crate::kind;
use turkish::endings::{Piece, Removed};
use writing::put;

// Writes a piece's line at place `at`, kind name, tab, letters, LF, and gives the place after it.
fn put_line(out: &mut [u8], at: usize, w: &[u8], p: Piece) -> usize
    requires first_le_last { p.first ≤ p.last }
    requires last_in_bounds { p.last < length w.now }
    requires p_in_bounds { at + length (piece_line w.now (told p)) ≤ length out.old }
    ensures value { result ≡ at + length (piece_line w.now (told p)) }
    ensures out_after { out.new ≡ put at (piece_line w.now (told p)) out.old }
{
    let named = put::put_all(out, at, kind::name_of(p.kind));
    let parted = put::put_byte(out, named, put::TAB);
    let spelt = put::put_all(out, parted, &w[p.first..p.last + 1]);
    put::put_byte(out, spelt, put::LF)
}

// Writes the lines of the pieces, and gives their length.
#[tactic(auto, unfolding(turkish::specs::PieceCalls::most_pieces))]
pub fn put_lines(w: &[u8], r: Removed, out: &mut [u8]) -> usize
    requires inside { Inside w.now r }
    requires pieces_in_bounds { length (text_of w.now (map told (take r.count r.pieces))) ≤ length out.old }
    ensures value { result ≡ length (text_of w.now (map told (take r.count r.pieces))) }
    ensures out_after { out.new ≡ written (text_of w.now (map told (take r.count r.pieces))) out.old }
{
    let mut at = 0;
    let pieces = &r.pieces[..r.count];
    for p in pieces {
        at = put_line(out, at, w, *p);
    }
    at
}
