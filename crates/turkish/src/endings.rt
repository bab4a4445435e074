// The pieces of a removed ending (document 02, request 1), as Rattle callers get them. specs/PieceCalls gives the number and the
// values for each case.

// How a piece joined: with a y, or after a vowel and one character.
#[derive(Clone, Copy)]
pub enum Joining {
    WithY,
    AfterVowel,
}

// The twelve marks, in the order of document 01's mark tables with yken last; six of them tell how they joined.
#[derive(Clone, Copy)]
pub enum Kind {
    YUm(Joining),
    SUn,
    YUz(Joining),
    SUnUz,
    LAr,
    NUz,
    DUr,
    CAsInA,
    YDU(Joining),
    YsA(Joining),
    YmUs(Joining),
    Yken(Joining),
}

// A piece: its kind, and the offsets of its first and its last byte in the word.
#[derive(Clone, Copy)]
pub struct Piece {
    pub kind: Kind,
    pub first: usize,
    pub last: usize,
}

impl Piece {
    // What stands in an entry that is not used.
    pub const UNUSED: Piece = Piece {
        kind: Kind::YUm(Joining::WithY),
        first: 0,
        last: 0,
    };
}

// What the suffix stage removed: the kept text's length in bytes, and so many pieces; entries past them are UNUSED.
// A count and no Option in each entry: readers take `pieces[..count]` as one slice, and `Lists` speaks of its front.
#[derive(Clone, Copy)]
pub struct Removed {
    pub length: usize,
    pub count: usize,
    pub pieces: [Piece; 3],
}
