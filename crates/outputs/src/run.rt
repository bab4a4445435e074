// A text made of a word's own bytes: a repair of a front part, and behind it the bytes from one place to another. Nothing is rebuilt before it is
// written.
ghost use Rattle.std.specs.Prelude.{◌≡◌, ◌+◌, ◌-◌, ◌≤◌, length};
ghost use Rattle.turkish.specs.Calls.{written};
ghost use Rattle.stages.specs.Outcome.{outcome_of};
ghost use Rattle.repairs.specs.Repairs.{letter_bytes};
ghost use Rattle.outputs.specs.Runs.{run_text, front_run, left_run, front_repaired, whole_run_of};

use crate::repair;
use nouns::stage as noun;
use nouns::stage::Uninflected;
use repairs::postlude;
use repairs::postlude::Repair;
use stages::stage::Outcome;
use writing::put;

// The repair's text, and behind it the word's bytes from place `from` up to `upto`.
#[derive(Clone, Copy)]
pub struct Run {
    pub repair: Repair,
    pub from: usize,
    pub upto: usize,
}

impl Run {
    // The first n bytes alone.
    fn front(n: usize) -> Run
        ensures { result ≡ front_run n }
    {
        Run {
            repair: Repair::unchanged(n, true),
            from: n,
            upto: n,
        }
    }

    // What the noun stage leaves of the first n bytes, all of them where nothing fits.
    pub fn left(u: Option<Uninflected>, n: usize) -> Run
        ensures { result ≡ left_run u n }
    {
        let Some(u) = u else {
            return Run::front(n);
        };
        Run {
            repair: Repair::unchanged(u.front, true),
            from: u.from,
            upto: n,
        }
    }

    // The postlude of the first `front` bytes, where the noun stage had n.
    #[tactic(auto, unfolding(crate::specs::Runs::front_repaired))]
    fn repaired(w: &[u8], front: usize, n: usize) -> Run
        requires { front ≤ length w.now }
        ensures { result ≡ front_repaired w.now front n }
    {
        Run {
            repair: postlude::postlude(w, front),
            from: n,
            upto: n,
        }
    }
}

// The whole run of a word of more than one syllable, whose suffix stage is known (turkish.rs, `stem`, from line 468 on). Where the noun stage
// leaves letters behind a cut, the text ends in a or e and the postlude would leave it.
pub fn whole_of(w: &[u8], s: Outcome) -> Run
    requires { s ≡ outcome_of w.now }
    ensures { result ≡ whole_run_of w.now }
{
    let kept = s.kept;
    if !s.flag {
        return Run::front(kept);
    }
    let Some(u) = noun::stem_noun_suffixes(w, kept) else {
        return Run::repaired(w, kept, kept);
    };
    if u.from < kept {
        return Run::left(Some(u), kept);
    }
    Run::repaired(w, u.front, kept)
}

// Writes the text of a run over w, and gives its length.
pub(crate) fn write_run(w: &[u8], r: Run, out: &mut [u8]) -> usize
    requires keep_in_bounds { r.repair.keep ≤ length w.now }
    requires from_le_upto { r.from ≤ r.upto }
    requires upto_in_bounds { r.upto ≤ length w.now }
    requires from_in_bounds { r.repair.keep + length (letter_bytes r.repair.letter) + (r.upto - r.from) ≤ length out.old }
    ensures value { result ≡ length (run_text w.now r) }
    ensures out_after { out.new ≡ written (run_text w.now r) out.old }
{
    let from = r.from;
    let upto = r.upto;
    let n = repair::write_repair(w, r.repair, out);
    put::put_bytes(out, n, &w[from..upto], upto - from)
}
