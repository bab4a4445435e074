// Why a call is refused. The numbers are the papers'; 0 is none of them.
ghost use Rattle.std.specs.Prelude.{◌≡◌};
ghost use Rattle.turkish.specs.Refusals.{refusal_number};

#[derive(Clone, Copy, PartialEq, Eq, Debug)]
pub enum Refusal {
    // The word's author: more bytes than the limit, or no UTF-8.
    OverLimit = 1,
    NotUtf8 = 2,
    // The host program: an output that is shorter than the call needs.
    OutputTooShort = 3,
    // The list's author: a tab in a line.
    HasTab = 4,
    // The host program: a buffer for pieces that is shorter than the call needs.
    BufferTooShort = 5,
    // The host program: too many tails, or one with too few characters.
    TailsRefused = 6,
}

impl From<Refusal> for u32 {
    ghost from_gives = { λ r n. n ≡ refusal_number r };

    fn from(r: Refusal) -> u32 {
        r as u32
    }
}
