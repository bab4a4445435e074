// The pieces of the ending that the suffix stage removes, for Rattle callers.
ghost use Rattle.std.specs.Prelude.{◌≡◌, length, IfOk};
ghost use Rattle.turkish.specs.Calls.{refusal, stage_call};
ghost use Rattle.turkish.specs.PieceCalls.{spans_of, Lists};
ghost use Rattle.turkish.specs.Refusals.{result_number};
ghost use Rattle.pieces.specs.Removed.{Stands, number_of, piece_of, start_of, count_of, removed_of};

use kinds::kind;
use marks::marked::Mark;
use refusals::refusal::Word;
use stages::stage;
use stages::trail::{Stop, Trail};
use turkish::endings::{Piece, Removed};
use turkish::refusal::Refusal;

// A mark's number.
#[tactic(auto, unfolding(crate::specs::Removed::number_of))]
fn number_of(mark: Mark) -> u32
    ensures { result ≡ number_of mark }
{
    mark as u32
}

// A mark kept, as a piece that ends before place `end`. A y before the key is the piece's first letter, and no key begins with one.
fn piece_of(w: &[u8], s: Option<Stop>, end: usize) -> Piece
    requires { Stands w.now s end }
    ensures { result ≡ piece_of w.now s end }
{
    let Some(stop) = s else {
        return Piece::UNUSED;
    };
    let at = stop.at;
    Piece {
        kind: kind::kind_of(number_of(stop.kind), w[at] == 0x79),
        first: at,
        last: end - 1,
    }
}

// Where a mark kept begins, 0 where there is none.
#[tactic(auto, unfolding(crate::specs::Removed::start_of))]
fn start_of(s: Option<Stop>) -> usize
    ensures { result ≡ start_of s }
{
    let Some(stop) = s else {
        return 0;
    };
    stop.at
}

// How many marks were kept.
#[tactic(auto, unfolding(crate::specs::Removed::count_of))]
fn count_of(t: Trail) -> usize
    ensures { result ≡ count_of t }
{
    if t.first.is_none() {
        return 0;
    }
    if t.second.is_none() {
        return 1;
    }
    if t.third.is_none() {
        return 2;
    }
    3
}

// What the suffix stage removes of a word.
pub(crate) fn pieces_of(w: Word) -> Removed
    ensures { result ≡ removed_of w.entry.bytes.now }
{
    let bytes = w.bytes;
    let o = stage::stem_nominal_verb_suffixes(bytes);
    let t = o.way.trail;
    let first = piece_of(bytes, t.first, bytes.len());
    let second = piece_of(bytes, t.second, start_of(t.first));
    let third = piece_of(bytes, t.third, start_of(t.second));
    Removed {
        length: o.kept,
        count: count_of(t),
        pieces: [first, second, third],
    }
}

// The kept text's length, and the pieces of what was removed. In which order they stand is free.
pub fn removed_word(w: &[u8]) -> Result<Removed, Refusal>
    ensures number { result_number result ≡ refusal w.now }
    ensures length_value { IfOk result (λ r. r.length ≡ (stage_call w.now).length) }
    ensures lists { IfOk result (λ r. Lists (spans_of w.now) r.count r.pieces) }
{
    let word = Word::new(w)?;
    Ok(pieces_of(word))
}
