// A step of the fold over a word: one or two of its bytes are taken, and one or two given for them. Two are taken where a letter that
// folds may stand, of which the first byte is that of Ç Ö Ü, of Ğ İ, or of Ş; everywhere else one.
ghost use Rattle.std.specs.Prelude.{◌≡◌, ◌<◌, length, drop};
ghost use Rattle.writing.specs.Letter.{bytes_of};
ghost use Rattle.folding.specs.FoldBytes.{small_byte, alone, second, paired, pair, fold_step};

use writing::letter::Letter;

// How many bytes are taken, and the one or two given for them, which are held as those of a letter are.
#[derive(Clone, Copy)]
pub struct FoldStep {
    pub taken: usize,
    pub given: Letter,
}

impl FoldStep {
    // How many bytes are given.
    pub(crate) fn gives(self) -> usize
        ensures { result ≡ length (bytes_of self.given) }
    {
        match self.given {
            Letter::One(_) => 1,
            Letter::Two(_, _) => 2,
        }
    }
}

// A to Z become a to z; every other byte stays.
pub(crate) fn small(b: u8) -> u8
    ensures { result ≡ small_byte b }
{
    if (0x41 <= b) & (b <= 0x5A) {
        return b + 0x20;
    }
    b
}

// One byte: I becomes ı.
pub(crate) fn fold_alone(b: u8) -> Letter
    ensures { result ≡ alone b }
{
    if b == 0x49 {
        return Letter::Two(0xC4, 0xB1);
    }
    Letter::One(small(b))
}

// The second byte after the first byte a: that of Ç Ö Ü, of Ğ or of Ş.
fn fold_second(a: u8, b: u8) -> u8
    ensures { result ≡ second a b }
{
    if (a == 0xC3) & ((b == 0x87) | (b == 0x96) | (b == 0x9C)) {
        return b + 0x20;
    }
    if (a != 0xC3) & (b == 0x9E) {
        return b + 1;
    }
    b
}

// Whether two bytes are taken from this one on.
fn is_paired(b: u8) -> bool
    ensures { result ≡ paired b }
{
    (0xC3 <= b) & (b <= 0xC5)
}

// Two bytes: İ becomes i.
fn fold_pair(a: u8, b: u8) -> Letter
    ensures { result ≡ pair a b }
{
    if (a == 0xC4) & (b == 0xB0) {
        return Letter::One(0x69);
    }
    Letter::Two(a, fold_second(a, b))
}

// The step from place i of the word.
pub(crate) fn fold_at(w: &[u8], i: usize) -> FoldStep
    requires { i < length w.now }
    ensures { result ≡ fold_step (drop i w.now) }
{
    let b = w[i];
    if is_paired(b) && i + 1 < w.len() {
        return FoldStep {
            taken: 2,
            given: fold_pair(b, w[i + 1]),
        };
    }
    FoldStep {
        taken: 1,
        given: fold_alone(b),
    }
}
