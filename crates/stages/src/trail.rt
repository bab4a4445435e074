// The marks that a branch keeps, as the suffix stage holds them on the way: up to three, in order of running; and what the first of them found
// that tests harmony.
ghost use Rattle.std.specs.Prelude.{◌≡◌};
ghost use Rattle.stages.specs.Trail.{stop_at, behind_way, one_mark, behind_branch, cut};

use marks::marked::{Mark, Marked};
use utf8::cursor::Cursor;
use vowels::harmony::Harmony;

// A mark kept: which it is, and the place at which it begins. A caller may tell its marks apart by a kind of its own.
#[derive(Clone, Copy)]
pub struct Stop<K = Mark> {
    pub kind: K,
    pub at: usize,
}

impl<K: Copy> Stop<K> {
    // A mark's, if it has a kind, as those of the suffix stage do.
    #[tactic(auto, unfolding(crate::specs::Trail::stop_at))]
    fn of(kind: Option<K>, at: usize) -> Option<Stop<K>>
        ensures { result ≡ stop_at kind at }
    {
        let kind = kind?;
        Some(Stop { kind, at })
    }
}

// The first of them ends at the word's end, each further one where the one before it begins.
#[derive(Clone, Copy)]
pub struct Trail<K = Mark> {
    pub first: Option<Stop<K>>,
    pub second: Option<Stop<K>>,
    pub third: Option<Stop<K>>,
}

impl Trail {
    pub const NONE: Trail = Trail {
        first: None,
        second: None,
        third: None,
    };
}

// What a branch keeps on its way: its marks, and what the first of them found that tests harmony.
#[derive(Clone, Copy)]
pub struct Way<K = Mark> {
    pub trail: Trail<K>,
    pub heard: Option<Harmony>,
}

impl Way {
    pub const NONE: Way = Way {
        trail: Trail::<Mark>::NONE,
        heard: None,
    };
}

impl<K: Copy> Way<K> {
    // The same behind one mark that was kept before, and what that one found.
    #[tactic(auto, unfolding(crate::specs::Trail::behind_way))]
    pub fn behind(self, kind: Option<K>, at: usize, told: Option<Harmony>) -> Way<K>
        ensures { result ≡ behind_way kind at told self }
    {
        Way {
            trail: Trail {
                first: Stop::of(kind, at),
                second: self.trail.first,
                third: self.trail.second,
            },
            heard: told.or(self.heard),
        }
    }
}

// A branch's answer where it fits: the record after it and what it keeps.
#[derive(Clone, Copy)]
pub struct Branch {
    pub end: Cursor,
    pub way: Way,
}

impl Branch {
    // One mark alone.
    #[tactic(auto, unfolding(crate::specs::Trail::one_mark, crate::specs::Trail::no_way, crate::specs::Trail::no_trail))]
    pub(crate) fn of(m: Marked) -> Branch
        ensures { result ≡ one_mark m }
    {
        Branch {
            end: m.before,
            way: Way::NONE.behind(m.kind, m.before.cursor, m.heard),
        }
    }

    // The same behind one mark that was kept before.
    #[tactic(auto, unfolding(crate::specs::Trail::behind_branch))]
    pub(crate) fn behind(self, m: Marked) -> Branch
        ensures { result ≡ behind_branch m self }
    {
        Branch {
            end: self.end,
            way: self.way.behind(m.kind, m.before.cursor, m.heard),
        }
    }

    // With all from its record on deleted.
    #[tactic(auto, unfolding(crate::specs::Trail::cut))]
    pub(crate) fn deleted(self) -> Branch
        ensures { result ≡ cut self }
    {
        Branch {
            end: self.end.deleted(),
            way: self.way,
        }
    }
}
