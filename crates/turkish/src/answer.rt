// The calls' results as C gets them: flat structs, since an exported call can hand back no enum. `refusal` is the papers' number, 0 where the call
// was not refused; a refused call has 0 and no elsewhere.
ghost use Rattle.std.specs.Prelude.{◌≡◌};
ghost use Rattle.turkish.specs.Results.{syllable_answer, stage_answer, text_answer, pass_answer, length_answer, pieces_answer, batch_answer};

use crate::refusal::Refusal;
use crate::reply::{Pass, Pieces, Stage, Text};

// The syllable check: two or more vowels.
#[repr(C)]
#[derive(Clone, Copy, Default)]
pub struct SyllableAnswer {
    pub refusal: u32,
    pub yes: bool,
}

impl From<Result<bool, Refusal>> for SyllableAnswer {
    ghost from_gives = { λ r a. a ≡ syllable_answer r };

    fn from(r: Result<bool, Refusal>) -> SyllableAnswer {
        match r {
            Ok(yes) => SyllableAnswer { refusal: 0, yes },
            Err(e) => SyllableAnswer {
                refusal: u32::from(e),
                ..SyllableAnswer::default()
            },
        }
    }
}

// The suffix stage. What harmony found is 0 and no where no piece tests it, and `harmonic` is no.
#[repr(C)]
#[derive(Clone, Copy, Default)]
pub struct StageAnswer {
    pub refusal: u32,
    pub length: usize,
    pub yes: bool,
    pub flag: bool,
    pub harmonic: bool,
    pub last: usize,
    pub partner: usize,
    pub loan: bool,
}

impl From<Result<Stage, Refusal>> for StageAnswer {
    ghost from_gives = { λ r a. a ≡ stage_answer r };

    fn from(r: Result<Stage, Refusal>) -> StageAnswer {
        match r {
            Ok(s) => {
                let found = s.harmony;
                let h = found.unwrap_or_default();
                StageAnswer {
                    refusal: 0,
                    length: s.length,
                    yes: s.yes,
                    flag: s.flag,
                    harmonic: found.is_some(),
                    last: h.last,
                    partner: h.partner,
                    loan: h.loan,
                }
            }
            Err(e) => StageAnswer {
                refusal: u32::from(e),
                ..StageAnswer::default()
            },
        }
    }
}

// The postlude and the noun stage: the text's length, and yes or no.
#[repr(C)]
#[derive(Clone, Copy, Default)]
pub struct TextAnswer {
    pub refusal: u32,
    pub length: usize,
    pub yes: bool,
}

impl From<Result<Text, Refusal>> for TextAnswer {
    ghost from_gives = { λ r a. a ≡ text_answer r };

    fn from(r: Result<Text, Refusal>) -> TextAnswer {
        match r {
            Ok(t) => TextAnswer {
                refusal: 0,
                length: t.length,
                yes: t.yes,
            },
            Err(e) => TextAnswer {
                refusal: u32::from(e),
                ..TextAnswer::default()
            },
        }
    }
}

// The fold, the whole run and the pieces as lines: the text's length.
#[repr(C)]
#[derive(Clone, Copy, Default)]
pub struct LengthAnswer {
    pub refusal: u32,
    pub length: usize,
}

impl From<Result<usize, Refusal>> for LengthAnswer {
    ghost from_gives = { λ r a. a ≡ length_answer r };

    fn from(r: Result<usize, Refusal>) -> LengthAnswer {
        match r {
            Ok(length) => LengthAnswer { refusal: 0, length },
            Err(e) => LengthAnswer {
                refusal: u32::from(e),
                ..LengthAnswer::default()
            },
        }
    }
}

// The word pass: its text's length, the syllable answer, the stage's answer and the flag.
#[repr(C)]
#[derive(Clone, Copy, Default)]
pub struct PassAnswer {
    pub refusal: u32,
    pub length: usize,
    pub syllable: bool,
    pub yes: bool,
    pub flag: bool,
}

impl From<Result<Pass, Refusal>> for PassAnswer {
    ghost from_gives = { λ r a. a ≡ pass_answer r };

    fn from(r: Result<Pass, Refusal>) -> PassAnswer {
        match r {
            Ok(p) => PassAnswer {
                refusal: 0,
                length: p.length,
                syllable: p.syllable,
                yes: p.yes,
                flag: p.flag,
            },
            Err(e) => PassAnswer {
                refusal: u32::from(e),
                ..PassAnswer::default()
            },
        }
    }
}

// The pieces of the removed ending: the kept text's length, and how many pieces the buffer holds.
#[repr(C)]
#[derive(Clone, Copy, Default)]
pub struct PiecesAnswer {
    pub refusal: u32,
    pub length: usize,
    pub count: usize,
}

impl From<Result<Pieces, Refusal>> for PiecesAnswer {
    ghost from_gives = { λ r a. a ≡ pieces_answer r };

    fn from(r: Result<Pieces, Refusal>) -> PiecesAnswer {
        match r {
            Ok(p) => PiecesAnswer {
                refusal: 0,
                length: p.length,
                count: p.count,
            },
            Err(e) => PiecesAnswer {
                refusal: u32::from(e),
                ..PiecesAnswer::default()
            },
        }
    }
}

// The batch: how many tails were answered.
#[repr(C)]
#[derive(Clone, Copy, Default)]
pub struct BatchAnswer {
    pub refusal: u32,
    pub count: usize,
}

impl From<Result<usize, Refusal>> for BatchAnswer {
    ghost from_gives = { λ r a. a ≡ batch_answer r };

    fn from(r: Result<usize, Refusal>) -> BatchAnswer {
        match r {
            Ok(count) => BatchAnswer { refusal: 0, count },
            Err(e) => BatchAnswer {
                refusal: u32::from(e),
                ..BatchAnswer::default()
            },
        }
    }
}
