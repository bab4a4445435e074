// The eight vowels and their partners (turkish.rs, `G_vowel` and `G_vowel1` to `G_vowel6`): what may stand earlier in harmony.
ghost use Rattle.std.specs.Prelude.{◌≡◌};
ghost use Rattle.turkish.specs.Letters.{has};
ghost use Rattle.turkish.specs.Vowels.{vowel};
ghost use Rattle.vowels.specs.Vowel.{vowel_of, numbered_vowel_of};

// A vowel: its own code point, its number, from 1 in the order of turkish.sbl's `vowel`, and its partners; where there are fewer than four, the
// last is named again.
#[derive(Clone, Copy)]
pub struct Vowel {
    pub ch: u32,
    pub number: usize,
    pub partners: [u32; 4],
}

impl Vowel {
    // a: a ı o u
    pub const A: Vowel = Vowel {
        ch: 0x61,
        number: 1,
        partners: [0x61, 0x131, 0x6F, 0x75],
    };
    // e: e i ö ü
    pub const E: Vowel = Vowel {
        ch: 0x65,
        number: 2,
        partners: [0x65, 0x69, 0xF6, 0xFC],
    };
    // ı: a ı
    pub const DOTLESS_I: Vowel = Vowel {
        ch: 0x131,
        number: 3,
        partners: [0x61, 0x131, 0x131, 0x131],
    };
    // i: e i
    pub const I: Vowel = Vowel {
        ch: 0x69,
        number: 4,
        partners: [0x65, 0x69, 0x69, 0x69],
    };
    // o and u: o u
    pub const O: Vowel = Vowel {
        ch: 0x6F,
        number: 5,
        partners: [0x6F, 0x75, 0x75, 0x75],
    };

    pub const U: Vowel = Vowel {
        ch: 0x75,
        number: 7,
        partners: [0x6F, 0x75, 0x75, 0x75],
    };
    // ö and ü: ö ü
    pub const O_UMLAUT: Vowel = Vowel {
        ch: 0xF6,
        number: 6,
        partners: [0xF6, 0xFC, 0xFC, 0xFC],
    };

    pub const U_UMLAUT: Vowel = Vowel {
        ch: 0xFC,
        number: 8,
        partners: [0xF6, 0xFC, 0xFC, 0xFC],
    };

    // The vowel that a code point is.
    pub fn of(ch: u32) -> Option<Vowel>
        ensures { result ≡ vowel_of ch }
    {
        match ch {
            0x61 => Some(Vowel::A),
            0x65 => Some(Vowel::E),
            0x69 => Some(Vowel::I),
            0x6F => Some(Vowel::O),
            0x75 => Some(Vowel::U),
            0xF6 => Some(Vowel::O_UMLAUT),
            0xFC => Some(Vowel::U_UMLAUT),
            0x131 => Some(Vowel::DOTLESS_I),
            _ => None,
        }
    }

    // The vowel of a number.
    pub fn numbered(number: usize) -> Option<Vowel>
        ensures { result ≡ numbered_vowel_of number }
    {
        match number {
            1 => Some(Vowel::A),
            2 => Some(Vowel::E),
            3 => Some(Vowel::DOTLESS_I),
            4 => Some(Vowel::I),
            5 => Some(Vowel::O),
            6 => Some(Vowel::O_UMLAUT),
            7 => Some(Vowel::U),
            8 => Some(Vowel::U_UMLAUT),
            _ => None,
        }
    }

    // Whether a code point is one of the vowel's partners.
    pub fn has_partner(self, ch: u32) -> bool
        ensures { result ≡ has self.partners ch }
    {
        self.partners.contains(&ch)
    }
}

// Whether a code point is a vowel.
pub fn is_vowel(ch: u32) -> bool
    ensures { result ≡ vowel ch }
{
    Vowel::of(ch).is_some()
}
