// The bytes that go on with a character.
ghost use Rattle.std.specs.Prelude.{◌≡◌};
ghost use Rattle.encoding.specs.Encoding.{continuation};

// Whether a byte goes on with a character and begins none.
pub fn is_continuation(b: u8) -> bool
    ensures { result ≡ continuation b }
{
    (0x80 <= b) & (b <= 0xBF)
}
