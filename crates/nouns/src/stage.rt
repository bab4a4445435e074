// The noun stage (turkish.rs, `r_stem_noun_suffixes`): its alternatives in the Rust's order. Marks only look before the cursor and cuts only
// move it back, so no text is rebuilt: an alternative answers the place that it came to. Left out are line 384's lArI, which fails
// where sU does, and line 402's chain where line 398 lost a plural, which has failed before. What need not fit is the place before it where it
// fails: `unwrap_or(t.c.cursor)`. That is written out, a step and what stands before it being two calls that no third function makes plainer.
ghost use Rattle.std.specs.Prelude.{◌≡◌, ◌≤◌, length};
ghost use Rattle.utf8.specs.Behind.{behind};
ghost use Rattle.theorems.specs.Simple.Nouns.{chain, plural, possessed, owned, owned_by_sU_of, after_ncA_of, pronominal, after_ndAn_of, after_DAn_of, after_nUn_of, after_DA_of, noun_rest};
ghost use Rattle.keys.specs.Seen.{Sees};
ghost use Rattle.keys.specs.Passed.{passes};
ghost use Rattle.nouns.specs.Stage.{near_ncA_of, near_pronominal_of, pronominal_rest, ndAn_or_nU_of, near_DAn_of, nUn_or_ylA_of, near_lAr, lost_lAr_of, near_nUn_of, DA_or_yU_or_yA_of};
ghost use Rattle.nouns.specs.Stage.{possessives_and_lAr_of, possessives_or_lAr_of, near_DA_of, later_lines_of, left_at, uninflected_of};

use crate::chain::stem_suffix_chain_before_ki;
use crate::mark;
use crate::step::step_to;
use keys::seen;
use keys::seen::Seen;
use marks::mark::mark_lAr;
use marks::marked::place;
use utf8::cursor::Cursor;

// Another text that the stage leaves of the first n bytes: those before `front`, and those from `from` on.
#[derive(Clone, Copy)]
pub struct Uninflected {
    pub front: usize,
    pub from: usize,
}

// lAr, and the chain before it in the word (lines 362, 370, 390).
#[tactic(auto, using(crate::proofs::Laws::Passing::steps), unfolding(theorems::specs::Simple::Nouns::plural))]
fn plural(w: &[u8], s: Seen) -> Option<usize>
    requires { Sees w.now s }
    ensures { result ≡ passes w.now s.c (plural chain (behind w.now s.c)) }
{
    let t = step_to(w, s, place(mark_lAr(w, s))?);
    Some(stem_suffix_chain_before_ki(w, t).unwrap_or(t.c.cursor))
}

// Possessives, and a plural before it in the word (line 388, and within 368, 400, 412). Inlined here and below, so that only `owned` is called.
#[inline(always)]
#[tactic(auto, using(crate::proofs::Laws::Passing::steps), unfolding(theorems::specs::Simple::Nouns::possessed))]
fn possessed(w: &[u8], s: Seen) -> Option<usize>
    requires { Sees w.now s }
    ensures { result ≡ passes w.now s.c (possessed chain (behind w.now s.c)) }
{
    let t = step_to(w, s, place(mark::mark_possessives(w, s))?);
    Some(plural(w, t).unwrap_or(t.c.cursor))
}

// sU, and a plural before it in the word (lines 378, 384, and within 368, 400, 412).
#[inline(always)]
#[tactic(auto, using(crate::proofs::Laws::Passing::steps), unfolding(theorems::specs::Simple::Nouns::owned_by_sU_of))]
fn owned_by_sU(w: &[u8], s: Seen) -> Option<usize>
    requires { Sees w.now s }
    ensures { result ≡ passes w.now s.c (owned_by_sU_of chain (behind w.now s.c)) }
{
    let t = step_to(w, s, place(mark::mark_sU(w, s))?);
    Some(plural(w, t).unwrap_or(t.c.cursor))
}

// Possessives or sU, and a plural before it in the word (lines 368, 400, 412). Left out of line, since it is called from several lines.
#[inline(never)]
#[tactic(auto, using(crate::proofs::Laws::Passing::steps))]
fn owned(w: &[u8], s: Seen) -> Option<usize>
    requires { Sees w.now s }
    ensures { result ≡ passes w.now s.c (owned chain (behind w.now s.c)) }
{
    possessed(w, s).or_else(|| owned_by_sU(w, s))
}

// What may stand before ncA in the word (lines 366 to 370).
#[tactic(auto, using(crate::proofs::Laws::Passing::steps), unfolding(crate::specs::Stage::near_ncA_of))]
fn near_ncA(w: &[u8], s: Seen) -> Option<usize>
    requires { Sees w.now s }
    ensures { result ≡ passes w.now s.c (near_ncA_of (behind w.now s.c)) }
{
    place(mark::mark_lArI(w, s))
        .or_else(|| owned(w, s))
        .or_else(|| plural(w, s))
}

// Lines 364 to 370.
#[tactic(auto, using(crate::proofs::Laws::Passing::steps), unfolding(theorems::specs::Simple::Nouns::after_ncA_of, crate::specs::Stage::near_ncA_of))]
fn after_ncA(w: &[u8], s: Seen) -> Option<usize>
    requires { Sees w.now s }
    ensures { result ≡ passes w.now s.c (after_ncA_of (behind w.now s.c)) }
{
    let t = step_to(w, s, place(mark::mark_ncA(w, s))?);
    Some(near_ncA(w, t).unwrap_or(t.c.cursor))
}

// ndA or nA (line 374).
#[tactic(auto, using(crate::proofs::Laws::Passing::steps), unfolding(theorems::specs::Simple::Nouns::pronominal))]
fn pronominal(w: &[u8], s: Seen) -> Option<usize>
    requires { Sees w.now s }
    ensures { result ≡ passes w.now s.c (pronominal (behind w.now s.c)) }
{
    place(mark::mark_ndA(w, s)).or_else(|| place(mark::mark_nA(w, s)))
}

// What may stand before ndA or nA in the word (lines 376 and 378).
#[tactic(auto, using(crate::proofs::Laws::Passing::steps), unfolding(crate::specs::Stage::near_pronominal_of))]
fn near_pronominal(w: &[u8], s: Seen) -> Option<usize>
    requires { Sees w.now s }
    ensures { result ≡ passes w.now s.c (near_pronominal_of (behind w.now s.c)) }
{
    place(mark::mark_lArI(w, s)).or_else(|| owned_by_sU(w, s))
}

// Lines 374 to 380. On line 380 the chain cuts before ndA or nA, which stays.
fn after_pronominal(w: &[u8], s: Seen) -> Option<Uninflected>
    requires { Sees w.now s }
    ensures { result ≡ left_at w.now s.c (pronominal_rest (behind w.now s.c)) }
{
    let n = s.c.cursor;
    let t = step_to(w, s, pronominal(w, s)?);
    if let Some(front) = near_pronominal(w, t) {
        return Some(Uninflected { front, from: n });
    }
    let front = stem_suffix_chain_before_ki(w, t)?;
    Some(Uninflected {
        front,
        from: t.c.cursor,
    })
}

// ndAn or nU (line 384).
#[tactic(auto, using(crate::proofs::Laws::Passing::steps), unfolding(crate::specs::Stage::ndAn_or_nU_of))]
fn ndAn_or_nU(w: &[u8], s: Seen) -> Option<usize>
    requires { Sees w.now s }
    ensures { result ≡ passes w.now s.c (ndAn_or_nU_of (behind w.now s.c)) }
{
    place(mark::mark_ndAn(w, s)).or_else(|| place(mark::mark_nU(w, s)))
}

// Line 384.
#[tactic(auto, using(crate::proofs::Laws::Passing::steps), unfolding(theorems::specs::Simple::Nouns::after_ndAn_of, crate::specs::Stage::ndAn_or_nU_of))]
fn after_ndAn(w: &[u8], s: Seen) -> Option<usize>
    requires { Sees w.now s }
    ensures { result ≡ passes w.now s.c (after_ndAn_of (behind w.now s.c)) }
{
    let t = step_to(w, s, ndAn_or_nU(w, s)?);
    owned_by_sU(w, t)
}

// What may stand before DAn in the word (lines 388 to 392).
#[tactic(auto, using(crate::proofs::Laws::Passing::steps), unfolding(crate::specs::Stage::near_DAn_of))]
fn near_DAn(w: &[u8], s: Seen) -> Option<usize>
    requires { Sees w.now s }
    ensures { result ≡ passes w.now s.c (near_DAn_of (behind w.now s.c)) }
{
    possessed(w, s)
        .or_else(|| plural(w, s))
        .or_else(|| stem_suffix_chain_before_ki(w, s))
}

// Lines 386 to 392.
#[tactic(auto, using(crate::proofs::Laws::Passing::steps), unfolding(theorems::specs::Simple::Nouns::after_DAn_of, crate::specs::Stage::near_DAn_of))]
fn after_DAn(w: &[u8], s: Seen) -> Option<usize>
    requires { Sees w.now s }
    ensures { result ≡ passes w.now s.c (after_DAn_of (behind w.now s.c)) }
{
    let t = step_to(w, s, place(mark::mark_DAn(w, s))?);
    Some(near_DAn(w, t).unwrap_or(t.c.cursor))
}

// nUn or ylA (line 396).
#[tactic(auto, using(crate::proofs::Laws::Passing::steps), unfolding(crate::specs::Stage::nUn_or_ylA_of))]
fn nUn_or_ylA(w: &[u8], s: Seen) -> Option<usize>
    requires { Sees w.now s }
    ensures { result ≡ passes w.now s.c (nUn_or_ylA_of (behind w.now s.c)) }
{
    place(mark::mark_nUn(w, s)).or_else(|| place(mark::mark_ylA(w, s)))
}

// Before lAr of line 398: the chain or, lAr being cut all the same, line 400.
#[tactic(auto, using(crate::proofs::Laws::Passing::steps), unfolding(crate::specs::Stage::near_lAr))]
fn near_lost_lAr(w: &[u8], s: Seen) -> Option<usize>
    requires { Sees w.now s }
    ensures { result ≡ passes w.now s.c (near_lAr (behind w.now s.c)) }
{
    stem_suffix_chain_before_ki(w, s).or_else(|| owned(w, s))
}

// Lines 398 and 400.
#[tactic(auto, using(crate::proofs::Laws::Passing::steps), unfolding(crate::specs::Stage::lost_lAr_of))]
fn lost_lAr(w: &[u8], s: Seen) -> Option<usize>
    requires { Sees w.now s }
    ensures { result ≡ passes w.now s.c (lost_lAr_of (behind w.now s.c)) }
{
    let t = step_to(w, s, place(mark_lAr(w, s))?);
    Some(near_lost_lAr(w, t).unwrap_or(t.c.cursor))
}

// What may stand before nUn or ylA in the word (lines 398 to 402).
#[tactic(auto, using(crate::proofs::Laws::Passing::steps), unfolding(crate::specs::Stage::near_nUn_of))]
fn near_nUn(w: &[u8], s: Seen) -> Option<usize>
    requires { Sees w.now s }
    ensures { result ≡ passes w.now s.c (near_nUn_of (behind w.now s.c)) }
{
    lost_lAr(w, s)
        .or_else(|| owned(w, s))
        .or_else(|| stem_suffix_chain_before_ki(w, s))
}

// Lines 396 to 402.
fn after_nUn(w: &[u8], s: Seen) -> Option<usize>
    requires { Sees w.now s }
    ensures { result ≡ passes w.now s.c (after_nUn_of (behind w.now s.c)) }
{
    let t = step_to(w, s, nUn_or_ylA(w, s)?);
    Some(near_nUn(w, t).unwrap_or(t.c.cursor))
}

// DA, yU or yA (line 410).
#[tactic(auto, using(crate::proofs::Laws::Passing::steps), unfolding(crate::specs::Stage::DA_or_yU_or_yA_of))]
fn DA_or_yU_or_yA(w: &[u8], s: Seen) -> Option<usize>
    requires { Sees w.now s }
    ensures { result ≡ passes w.now s.c (DA_or_yU_or_yA_of (behind w.now s.c)) }
{
    place(mark::mark_DA(w, s))
        .or_else(|| place(mark::mark_yU(w, s)))
        .or_else(|| place(mark::mark_yA(w, s)))
}

// Possessives, with lAr before it or not (line 410).
#[tactic(auto, using(crate::proofs::Laws::Passing::steps), unfolding(crate::specs::Stage::possessives_and_lAr_of))]
fn possessives_and_lAr(w: &[u8], s: Seen) -> Option<usize>
    requires { Sees w.now s }
    ensures { result ≡ passes w.now s.c (possessives_and_lAr_of (behind w.now s.c)) }
{
    let t = step_to(w, s, place(mark::mark_possessives(w, s))?);
    Some(place(mark_lAr(w, t)).unwrap_or(t.c.cursor))
}

// That, or lAr (line 410).
#[tactic(auto, using(crate::proofs::Laws::Passing::steps), unfolding(crate::specs::Stage::possessives_or_lAr_of))]
fn possessives_or_lAr(w: &[u8], s: Seen) -> Option<usize>
    requires { Sees w.now s }
    ensures { result ≡ passes w.now s.c (possessives_or_lAr_of (behind w.now s.c)) }
{
    possessives_and_lAr(w, s).or_else(|| place(mark_lAr(w, s)))
}

// What may stand before DA, yU or yA in the word (line 410).
#[tactic(auto, using(crate::proofs::Laws::Passing::steps), unfolding(crate::specs::Stage::near_DA_of))]
fn near_DA(w: &[u8], s: Seen) -> Option<usize>
    requires { Sees w.now s }
    ensures { result ≡ passes w.now s.c (near_DA_of (behind w.now s.c)) }
{
    let before = step_to(w, s, possessives_or_lAr(w, s)?);
    Some(stem_suffix_chain_before_ki(w, before).unwrap_or(before.c.cursor))
}

// Line 410.
fn after_DA(w: &[u8], s: Seen) -> Option<usize>
    requires { Sees w.now s }
    ensures { result ≡ passes w.now s.c (after_DA_of (behind w.now s.c)) }
{
    let t = step_to(w, s, DA_or_yU_or_yA(w, s)?);
    Some(near_DA(w, t).unwrap_or(t.c.cursor))
}

// The chain at the word's end (line 408). Few words end in `ki`, so that is asked of what is seen already.
fn chain_alone(w: &[u8], s: Seen) -> Option<usize>
    requires { Sees w.now s }
    ensures { result ≡ passes w.now s.c (chain (behind w.now s.c)) }
{
    place(mark::mark_ki(w, s))?;
    stem_suffix_chain_before_ki(w, s)
}

// Lines 384 to 412.
#[tactic(auto, using(crate::proofs::Laws::Passing::steps), unfolding(crate::specs::Stage::later_lines_of))]
fn later_lines(w: &[u8], s: Seen) -> Option<usize>
    requires { Sees w.now s }
    ensures { result ≡ passes w.now s.c (later_lines_of (behind w.now s.c)) }
{
    after_ndAn(w, s)
        .or_else(|| after_DAn(w, s))
        .or_else(|| after_nUn(w, s))
        .or_else(|| place(mark::mark_lArI(w, s)))
        .or_else(|| chain_alone(w, s))
        .or_else(|| after_DA(w, s))
        .or_else(|| owned(w, s))
}

// All lines: the first alternative that fits, if one does.
#[tactic(auto, using(crate::proofs::Laws::Lines::noun_lines))]
fn first_line(w: &[u8], s: Seen) -> Option<Uninflected>
    requires { Sees w.now s }
    ensures { result ≡ left_at w.now s.c (noun_rest (behind w.now s.c)) }
{
    let n = s.c.cursor;
    let cut = |front| Uninflected { front, from: n };
    plural(w, s)
        .or_else(|| after_ncA(w, s))
        .map(cut)
        .or_else(|| after_pronominal(w, s))
        .or_else(|| later_lines(w, s).map(cut))
}

// The noun stage of the first n bytes of a word, entered at their end with limit_backward 0.
pub fn stem_noun_suffixes(w: &[u8], n: usize) -> Option<Uninflected>
    requires { n ≤ length w.now }
    ensures { result ≡ uninflected_of w.now n }
{
    let s = seen::look_back(
        w,
        Cursor {
            cursor: n,
            limit: n,
            limit_backward: 0,
        },
    );
    first_line(w, s)
}
