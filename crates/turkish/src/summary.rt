// The summary of a front (document 02, request 7): all of it that decides what the suffix stage removes of a tail behind it.

// The last vowel's number, from 1 in the order of turkish.sbl's `vowel`, 0 where there is none; and how often each of the eight stands
// before it.
#[derive(Clone, Copy)]
pub struct Summary {
    pub last: usize,
    pub counts: [usize; 8],
}

impl Summary {
    // Of a front without a vowel.
    pub const EMPTY: Summary = Summary {
        last: 0,
        counts: [0; 8],
    };
}
