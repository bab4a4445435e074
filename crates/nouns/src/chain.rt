// The chain before `ki` (turkish.rs, `r_stem_suffix_chain_before_ki`), which calls itself: each turn that calls has taken `ki`, so the cursor falls.
// The calls of a turn are under `try` and its last act, so they stand here in one place.
ghost use Rattle.std.specs.Prelude.{◌≡◌};
ghost use Rattle.utf8.specs.Behind.{behind};
ghost use Rattle.theorems.specs.Simple.Nouns.{chain};
ghost use Rattle.keys.specs.Seen.{Sees};
ghost use Rattle.keys.specs.Passed.{passes};

use crate::link;
use crate::link::Link;
use crate::step::step_to;
use keys::seen::Seen;

// The place to which the chain takes the text.
pub fn stem_suffix_chain_before_ki(w: &[u8], s: Seen) -> Option<usize>
    requires { Sees w.now s }
    ensures { result ≡ passes w.now s.c (chain (behind w.now s.c)) }
{
    match link::one_link(w, s)? {
        Link::Ends(p) => Some(p),
        Link::Calls(p) => stem_suffix_chain_before_ki(w, step_to(w, s, p)).or(Some(p)),
    }
}
