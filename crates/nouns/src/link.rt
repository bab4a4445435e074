// One turn of the chain before `ki` (turkish.rs, `r_stem_suffix_chain_before_ki`, up to where it calls itself). Line 351's ndA is left out:
// it fails wherever DA does.
ghost use Rattle.std.specs.Prelude.{◌≡◌, Some};
ghost use Rattle.utf8.specs.Behind.{behind};
ghost use Rattle.keys.specs.Seen.{Sees};
ghost use Rattle.nouns.specs.Link.{linked, before_lAr, before_DA_of, before_nUn_of, link_of};

use crate::mark;
use crate::step::step_to;
use keys::seen::Seen;
use marks::mark::mark_lAr;
use marks::marked::place;

// A turn takes the text from this place on, and the chain ends there or may go on there.
#[derive(Clone, Copy)]
pub enum Link {
    Ends(usize),
    Calls(usize),
}

// What stands before a possessive or sU in the word (lines 339 and 346): lAr, where the chain is called then, or nothing.
fn before_possessive(w: &[u8], s: Seen) -> Link
    requires { Sees w.now s }
    ensures { Some result ≡ linked w.now s.c (before_lAr (behind w.now s.c)) }
{
    match place(mark_lAr(w, s)) {
        Some(p) => Link::Calls(p),
        None => Link::Ends(s.c.cursor),
    }
}

// What stands before DA in the word (lines 337 to 339).
fn before_DA(w: &[u8], s: Seen) -> Link
    requires { Sees w.now s }
    ensures { Some result ≡ linked w.now s.c (before_DA_of (behind w.now s.c)) }
{
    if let Some(p) = place(mark_lAr(w, s)) {
        return Link::Calls(p);
    }
    if let Some(p) = place(mark::mark_possessives(w, s)) {
        return before_possessive(w, step_to(w, s, p));
    }
    Link::Ends(s.c.cursor)
}

// What stands before nUn in the word (lines 344 to 348).
fn before_nUn(w: &[u8], s: Seen) -> Link
    requires { Sees w.now s }
    ensures { Some result ≡ linked w.now s.c (before_nUn_of (behind w.now s.c)) }
{
    if let Some(p) = place(mark::mark_lArI(w, s)) {
        return Link::Ends(p);
    }
    if let Some(p) = place(mark::mark_possessives(w, s)) {
        return before_possessive(w, step_to(w, s, p));
    }
    if let Some(p) = place(mark::mark_sU(w, s)) {
        return before_possessive(w, step_to(w, s, p));
    }
    Link::Calls(s.c.cursor)
}

// Lines 333 to 348.
pub fn one_link(w: &[u8], s: Seen) -> Option<Link>
    requires { Sees w.now s }
    ensures { result ≡ linked w.now s.c (link_of (behind w.now s.c)) }
{
    let t = step_to(w, s, place(mark::mark_ki(w, s))?);
    if let Some(p) = place(mark::mark_DA(w, t)) {
        return Some(before_DA(w, step_to(w, t, p)));
    }
    let p = place(mark::mark_nUn(w, t))?;
    Some(before_nUn(w, step_to(w, t, p)))
}
