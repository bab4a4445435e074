// For the comparison with the Rust: the UTF-8 check's plain runs; the cursor's steps, the record going in and coming out as plain numbers;
// the suffix stage's part, copied, since no exported call can hand back a slice; and the list of a removed ending's pieces, laid out flat,
// since none can hand back an enum. No host links this.
#![tactic(auto)]

ghost use Rattle.std.specs.Prelude.{◌≡◌, length};
ghost use Rattle.encoding.specs.PlainRuns.{run_end_of};
ghost use Rattle.utf8.specs.Steps.{previous_char_of, next_char_of, eq_s_b_of, eq_s_of};
ghost use Rattle.turkish.specs.Calls.{stage_part_of};
ghost use Rattle.turkish.specs.PieceCalls.{joined_of, kind_joined};
ghost use Rattle.probe.specs.Part.{part_length, part_out};
ghost use Rattle.probe.specs.Flat.{flat_of, flat_step_of, flat_literal_of, cursor_from, joined_number, flat_removed_of, FlatList};

use encoding::plain;
use kinds::kind;
use pieces::removed;
use turkish::endings::{Joining, Kind, Piece, Removed};
use utf8::cursor::Cursor;
use utf8::{literal, step};
use words::stage;
use writing::put;

// Where the plain run from a place on ends; the place itself where that lies past the word.
#[unsafe(no_mangle)]
pub extern "C" fn probe_run_end(w: &[u8], from: usize) -> usize
    ensures { result ≡ run_end_of w.now from }
{
    if w.len() < from {
        return from;
    }
    plain::run_end(w, from)
}

// A step's answer, laid out flat; ch is 0 for a literal.
#[repr(C)]
#[derive(Clone, Copy)]
pub struct ProbeStep {
    pub moved: bool,
    pub ch: u32,
    pub cursor: usize,
    pub limit: usize,
    pub limit_backward: usize,
}

// The record made of its three numbers.
fn cursor_of(cursor: usize, limit: usize, backward: usize) -> Cursor
    ensures { result ≡ cursor_from cursor limit backward }
{
    Cursor {
        cursor,
        limit,
        limit_backward: backward,
    }
}

// A record after a step, laid out flat.
fn laid_flat(moved: bool, ch: u32, n: Cursor) -> ProbeStep
    ensures { result ≡ flat_of moved ch n }
{
    ProbeStep {
        moved,
        ch,
        cursor: n.cursor,
        limit: n.limit,
        limit_backward: n.limit_backward,
    }
}

// A step of one character from the record r; where there is none, ch is 0 and the record r itself.
fn flat_step(r: Cursor, s: Option<step::Step>) -> ProbeStep
    ensures { result ≡ flat_step_of r s }
{
    match s {
        Some(s) => laid_flat(true, s.ch, s.next),
        None => laid_flat(false, 0, r),
    }
}

// A step over a literal; ch is 0.
fn flat_literal(r: Cursor, s: Option<Cursor>) -> ProbeStep
    ensures { result ≡ flat_literal_of r s }
{
    flat_step(r, s.map(|next| step::Step { ch: 0, next }))
}

#[unsafe(no_mangle)]
pub extern "C" fn probe_previous_char(
    w: &[u8],
    cursor: usize,
    limit: usize,
    backward: usize,
) -> ProbeStep
    ensures { result ≡ flat_step_of (cursor_from cursor limit backward) (previous_char_of w.now (cursor_from cursor limit backward)) }
{
    let r = cursor_of(cursor, limit, backward);
    flat_step(r, step::previous_char(w, r))
}

#[unsafe(no_mangle)]
pub extern "C" fn probe_next_char(
    w: &[u8],
    cursor: usize,
    limit: usize,
    backward: usize,
) -> ProbeStep
    ensures { result ≡ flat_step_of (cursor_from cursor limit backward) (next_char_of w.now (cursor_from cursor limit backward)) }
{
    let r = cursor_of(cursor, limit, backward);
    flat_step(r, step::next_char(w, r))
}

#[unsafe(no_mangle)]
pub extern "C" fn probe_eq_s_b(
    w: &[u8],
    s: &[u8],
    cursor: usize,
    limit: usize,
    backward: usize,
) -> ProbeStep
    ensures { result ≡ flat_literal_of (cursor_from cursor limit backward) (eq_s_b_of w.now s.now (cursor_from cursor limit backward)) }
{
    let r = cursor_of(cursor, limit, backward);
    flat_literal(r, literal::eq_s_b(w, s, r))
}

#[unsafe(no_mangle)]
pub extern "C" fn probe_eq_s(
    w: &[u8],
    s: &[u8],
    cursor: usize,
    limit: usize,
    backward: usize,
) -> ProbeStep
    ensures { result ≡ flat_literal_of (cursor_from cursor limit backward) (eq_s_of w.now s.now (cursor_from cursor limit backward)) }
{
    let r = cursor_of(cursor, limit, backward);
    flat_literal(r, literal::eq_s(w, s, r))
}

// Copies the part of the word that the suffix stage keeps, and gives its length; 0, and nothing written, where it does not fit.
#[unsafe(no_mangle)]
pub extern "C" fn probe_stage_part(w: &[u8], out: &mut [u8]) -> usize
    ensures value { result ≡ part_length (stage_part_of w.now) (length out.old) }
    ensures out_after { out.new ≡ part_out (stage_part_of w.now) out.old }
{
    let part = stage::stage_part(w);
    if out.len() < part.len() {
        return 0;
    }
    put::copy(part, out)
}

// The list of a removed ending's pieces, laid out flat: kinds by number; joinings 0 for none, 1 with a y, 2 after a vowel and one
// character. Entries that are not used are laid out as they are.
#[repr(C)]
#[derive(Clone, Copy)]
pub struct ProbeRemoved {
    pub refusal: u32,
    pub length: usize,
    pub count: usize,
    pub kinds: [u8; 3],
    pub joinings: [u8; 3],
    pub first: [usize; 3],
    pub last: [usize; 3],
}

// A joining's number.
#[tactic(auto, unfolding(crate::specs::Flat::joined_number, turkish::specs::PieceCalls::joined_of))]
fn number_of_joining(joining: Joining) -> u8
    ensures { result ≡ joined_number (joined_of joining) }
{
    match joining {
        Joining::WithY => 1,
        Joining::AfterVowel => 2,
    }
}

// The number of how a piece of this kind joined.
#[tactic(auto, unfolding(crate::specs::Flat::joined_number, turkish::specs::PieceCalls::kind_joined))]
fn joining_of(kind: Kind) -> u8
    ensures { result ≡ joined_number (kind_joined kind) }
{
    match kind {
        Kind::YUm(j) | Kind::YUz(j) | Kind::YDU(j) | Kind::YsA(j) | Kind::YmUs(j) | Kind::Yken(j) =>
            number_of_joining(j),
        Kind::SUn | Kind::SUnUz | Kind::LAr | Kind::NUz | Kind::DUr | Kind::CAsInA => 0,
    }
}

// A list of pieces, laid out flat.
#[tactic(auto, unfolding(crate::specs::Flat::flat_removed_of, crate::specs::Flat::column, turkish::specs::PieceCalls::told))]
fn flat_removed(r: Removed) -> ProbeRemoved
    ensures { result ≡ flat_removed_of r }
{
    ProbeRemoved {
        refusal: 0,
        length: r.length,
        count: r.count,
        kinds: r.pieces.map(|p| kind::number_of(p.kind)),
        joinings: r.pieces.map(|p| joining_of(p.kind)),
        first: r.pieces.map(|p| p.first),
        last: r.pieces.map(|p| p.last),
    }
}

// No pieces.
const NOTHING: Removed = Removed {
    length: 0,
    count: 0,
    pieces: [Piece::UNUSED; 3],
};

// What the suffix stage removes of a word, laid out flat; nothing where it is refused. In which order the pieces stand is free.
#[unsafe(no_mangle)]
pub extern "C" fn probe_removed(w: &[u8]) -> ProbeRemoved
    ensures { FlatList w.now result }
{
    match removed::removed_word(w) {
        Ok(r) => flat_removed(r),
        Err(e) => ProbeRemoved {
            refusal: u32::from(e),
            ..flat_removed(NOTHING)
        },
    }
}
