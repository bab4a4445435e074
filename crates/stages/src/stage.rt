// The suffix stage (turkish.rs, `r_stem_nominal_verb_suffixes`): its six branches in the Rust's order. A branch answers the record
// after its deletions, which lower the limit, with the marks that it keeps and what the first of them found that tests harmony; the text kept
// ends at the limit.
ghost use Rattle.std.specs.Prelude.{◌≡◌};
ghost use Rattle.utf8.specs.Behind.{behind};
ghost use Rattle.theorems.specs.Simple.Grammar.{mark, ◌then◌};
ghost use Rattle.theorems.specs.Simple.Marks.{ymUs};
ghost use Rattle.theorems.specs.Simple.Pieces.{trace};
ghost use Rattle.theorems.specs.Simple.Stage.{person, branch1, branch2, branch3, branch4, branch5, branch6};
ghost use Rattle.keys.specs.Seen.{Sees};
ghost use Rattle.marks.specs.Reach.{reach};
ghost use Rattle.stages.specs.Groups.{person_mark, person_alone_of, after_lAr_of, after_nUz_of, first_ends_of, fifth_ends};
ghost use Rattle.stages.specs.Trail.{along, cut_to};
ghost use Rattle.stages.specs.Outcome.{outcome, outcome_of};

use crate::trail::{Branch, Way};
use keys::seen::Seen;
use keys::{ends, seen};
use marks::mark;
use marks::marked::Marked;
use utf8::cursor::Cursor;

// The place before which the text kept stands, whether an ending was removed, and the flag; the marks kept, and for the first of them that tests
// harmony what it heard.
#[derive(Clone, Copy)]
pub struct Outcome {
    pub kept: usize,
    pub yes: bool,
    pub flag: bool,
    pub way: Way,
}

impl Outcome {
    // What a branch leaves, with the flag.
    #[tactic(auto, unfolding(crate::specs::Outcome::outcome))]
    fn of(b: Branch, flag: bool) -> Outcome
        ensures { result ≡ outcome b flag }
    {
        Outcome {
            kept: b.end.limit,
            yes: true,
            flag,
            way: b.way,
        }
    }
}

// The marks of line 314.
fn first_mark(w: &[u8], s: Seen) -> Option<Marked>
    requires { Sees w.now s }
    ensures { result ≡ reach w.now s.c (trace branch1 (behind w.now s.c)) }
{
    mark::mark_ymUs_(w, s)
        .or_else(|| mark::mark_yDU(w, s))
        .or_else(|| mark::mark_ysA(w, s))
        .or_else(|| mark::mark_yken(w, s))
}

// A person's ending (lines 316 and 327).
fn person(w: &[u8], s: Seen) -> Option<Marked>
    requires { Sees w.now s }
    ensures { result ≡ reach w.now s.c (trace person_mark (behind w.now s.c)) }
{
    mark::mark_sUnUz(w, s)
        .or_else(|| mark::mark_lAr(w, s))
        .or_else(|| mark::mark_yUm(w, s))
        .or_else(|| mark::mark_sUn(w, s))
        .or_else(|| mark::mark_yUz(w, s))
}

// What may follow lAr (line 319).
fn after_lAr(w: &[u8], s: Seen) -> Option<Marked>
    requires { Sees w.now s }
    ensures { result ≡ reach w.now s.c (trace after_lAr_of (behind w.now s.c)) }
{
    mark::mark_DUr(w, s)
        .or_else(|| mark::mark_yDU(w, s))
        .or_else(|| mark::mark_ysA(w, s))
        .or_else(|| mark::mark_ymUs_(w, s))
}

// What must follow nUz (line 323).
fn after_nUz(w: &[u8], s: Seen) -> Option<Marked>
    requires { Sees w.now s }
    ensures { result ≡ reach w.now s.c (trace after_nUz_of (behind w.now s.c)) }
{
    mark::mark_yDU(w, s).or_else(|| mark::mark_ysA(w, s))
}

// A person's ending without lAr (line 325).
fn person_alone(w: &[u8], s: Seen) -> Option<Marked>
    requires { Sees w.now s }
    ensures { result ≡ reach w.now s.c (trace person_alone_of (behind w.now s.c)) }
{
    mark::mark_sUnUz(w, s)
        .or_else(|| mark::mark_yUz(w, s))
        .or_else(|| mark::mark_sUn(w, s))
        .or_else(|| mark::mark_yUm(w, s))
}

// ymUs_ by itself (lines 316, 325 and 327).
fn ymUs_alone(w: &[u8], s: Seen) -> Option<Branch>
    requires { Sees w.now s }
    ensures { result ≡ along w.now s.c (trace (mark ymUs) (behind w.now s.c)) }
{
    let m = mark::mark_ymUs_(w, s)?;
    Some(Branch::of(m))
}

// A person's ending or nothing, then ymUs_ (lines 316 and 327).
fn person_and_ymUs(w: &[u8], s: Seen) -> Option<Branch>
    requires { Sees w.now s }
    ensures { result ≡ along w.now s.c (trace (person then mark ymUs) (behind w.now s.c)) }
{
    let Some(m) = person(w, s) else {
        return ymUs_alone(w, s);
    };
    let rest = ymUs_alone(w, seen::look_back(w, m.before))?;
    Some(rest.behind(m))
}

// Whether the last letter may be that of a mark with which the first branch begins, or the fifth. Of the others it is one letter or A.
#[tactic(auto, unfolding(crate::specs::Groups::first_ends_of))]
fn ends_first(a: u32) -> bool
    ensures { result ≡ first_ends_of a }
{
    (ends::is_U(a) | ends::is_kmn(a)) | (ends::is_A(a) | (a == 0x15F))
}

#[tactic(auto, unfolding(crate::specs::Groups::fifth_ends))]
fn ends_fifth(a: u32) -> bool
    ensures { result ≡ fifth_ends a }
{
    (a == 0x7A) | ((a == 0x6E) | (a == 0x6D))
}

// Line 314: ymUs_, yDU, ysA or yken.
fn first_branch(w: &[u8], s: Seen) -> Option<Branch>
    requires { Sees w.now s }
    ensures { result ≡ cut_to w.now s.c (trace branch1 (behind w.now s.c)) }
{
    let m = first_mark(w, s)?;
    Some(Branch::of(m).deleted())
}

// Line 316: cAsInA, a person's ending or nothing, then ymUs_.
fn second_branch(w: &[u8], s: Seen) -> Option<Branch>
    requires { Sees w.now s }
    ensures { result ≡ cut_to w.now s.c (trace branch2 (behind w.now s.c)) }
{
    let m = mark::mark_cAsInA(w, s)?;
    let rest = person_and_ymUs(w, seen::look_back(w, m.before))?;
    Some(rest.behind(m).deleted())
}

// Lines 318 to 320: lAr, deleted; then DUr, yDU, ysA or ymUs_ if one fits. The flag goes down.
fn third_branch(w: &[u8], s: Seen) -> Option<Branch>
    requires { Sees w.now s }
    ensures { result ≡ cut_to w.now s.c (trace branch3 (behind w.now s.c)) }
{
    let m = mark::mark_lAr(w, s)?;
    let Some(n) = after_lAr(w, seen::look_back(w, m.before.deleted())) else {
        return Some(Branch::of(m).deleted());
    };
    Some(Branch::of(n).behind(m).deleted())
}

// Line 323: nUz, then yDU or ysA.
fn fourth_branch(w: &[u8], s: Seen) -> Option<Branch>
    requires { Sees w.now s }
    ensures { result ≡ cut_to w.now s.c (trace branch4 (behind w.now s.c)) }
{
    let m = mark::mark_nUz(w, s)?;
    let n = after_nUz(w, seen::look_back(w, m.before))?;
    Some(Branch::of(n).behind(m).deleted())
}

// Line 325: sUnUz, yUz, sUn or yUm, deleted; then ymUs_ if it fits.
fn fifth_branch(w: &[u8], s: Seen) -> Option<Branch>
    requires { Sees w.now s }
    ensures { result ≡ cut_to w.now s.c (trace branch5 (behind w.now s.c)) }
{
    let m = person_alone(w, s)?;
    let Some(rest) = ymUs_alone(w, seen::look_back(w, m.before.deleted())) else {
        return Some(Branch::of(m).deleted());
    };
    Some(rest.behind(m).deleted())
}

// Line 327: DUr, deleted; then a person's ending or nothing and ymUs_, if that fits whole.
fn sixth_branch(w: &[u8], s: Seen) -> Option<Branch>
    requires { Sees w.now s }
    ensures { result ≡ cut_to w.now s.c (trace branch6 (behind w.now s.c)) }
{
    let m = mark::mark_DUr(w, s)?;
    let Some(rest) = person_and_ymUs(w, seen::look_back(w, m.before.deleted())) else {
        return Some(Branch::of(m).deleted());
    };
    Some(rest.behind(m).deleted())
}

// The suffix stage of a word, entered at its end with limit_backward 0: the first branch that fits, with its flag, which a chain of closures
// would have to find in each branch's answer. Only branches that may begin with the word's last letter are tried.
pub fn stem_nominal_verb_suffixes(w: &[u8]) -> Outcome
    ensures { result ≡ outcome_of w.now }
{
    let n = w.len();
    let s = seen::look_back(
        w,
        Cursor {
            cursor: n,
            limit: n,
            limit_backward: 0,
        },
    );
    let last = s.ending.last;
    if ends_first(last) {
        if let Some(b) = first_branch(w, s) {
            return Outcome::of(b, true); // line 314
        }
    }
    if ends::is_A(last) {
        if let Some(b) = second_branch(w, s) {
            return Outcome::of(b, true); // line 316
        }
    }
    if last == 0x72 {
        if let Some(b) = third_branch(w, s) {
            return Outcome::of(b, false); // line 318
        }
    }
    if last == 0x7A {
        if let Some(b) = fourth_branch(w, s) {
            return Outcome::of(b, true); // line 323
        }
    }
    if ends_fifth(last) {
        if let Some(b) = fifth_branch(w, s) {
            return Outcome::of(b, true); // line 325
        }
    }
    if last == 0x72 {
        if let Some(b) = sixth_branch(w, s) {
            return Outcome::of(b, true); // line 327
        }
    }
    Outcome {
        kept: n,
        yes: false,
        flag: true,
        way: Way::NONE,
    }
}
