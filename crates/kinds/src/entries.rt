// The pieces as numbers: three bytes each at the front of a lent buffer.
ghost use Rattle.std.specs.Prelude.{◌≡◌, map, ◌≤◌, length, take};
ghost use Rattle.turkish.specs.Calls.{written};
ghost use Rattle.turkish.specs.PieceCalls.{told, pieces_room, buffer};
ghost use Rattle.kinds.specs.Entries.{Near};

use crate::kind;
use turkish::endings::Removed;

// Writes each piece's kind and the distances of its first and last byte from the kept text's end.
#[tactic(auto, using(crate::proofs::Laws::Entries::entry_laws), unfolding(turkish::specs::PieceCalls::most_pieces, turkish::specs::PieceCalls::pieces_room, turkish::specs::PieceCalls::unused))]
pub fn put_pieces(r: Removed, out: &mut [u8])
    requires near { Near r }
    requires pieces_room_in_bounds { pieces_room ≤ length out.old }
    ensures { out.new ≡ written (buffer r.length (map told (take r.count r.pieces))) out.old }
{
    let pieces = &r.pieces[..r.count];
    for (i, p) in pieces.iter().enumerate() {
        out[3 * i] = kind::number_of(p.kind);
        out[3 * i + 1] = (p.first - r.length) as u8;
        out[3 * i + 2] = (p.last - r.length) as u8;
    }
}
