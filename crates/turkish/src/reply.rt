// What the calls give Rattle callers where they are not refused.

// What harmony found: the offsets at which the last vowel and its nearest partner start, and whether a vowel stands between them, which
// makes the word a loan candidate.
#[derive(Clone, Copy, Default)]
pub struct Harmony {
    pub last: usize,
    pub partner: usize,
    pub loan: bool,
}

// The suffix stage: the kept text's length in bytes, whether an ending was removed, and whether noun stage and postlude are due. Then what
// harmony found for the first piece of the ending that tests it; none where none does.
#[derive(Clone, Copy)]
pub struct Stage {
    pub length: usize,
    pub yes: bool,
    pub flag: bool,
    pub harmony: Option<Harmony>,
}

// The text of the postlude, and no where the word is reserved; that of the noun stage, and whether it is another text.
#[derive(Clone, Copy)]
pub struct Text {
    pub length: usize,
    pub yes: bool,
}

// The word pass: its text's length, the syllable answer, the stage's answer and the flag.
#[derive(Clone, Copy)]
pub struct Pass {
    pub length: usize,
    pub syllable: bool,
    pub yes: bool,
    pub flag: bool,
}

// The pieces of the removed ending: the kept text's length, and how many pieces the buffer holds.
#[derive(Clone, Copy)]
pub struct Pieces {
    pub length: usize,
    pub count: usize,
}
