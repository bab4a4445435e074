// The UTF-8 check as a call: any slice, of any length, and no number.
ghost use Rattle.std.specs.Prelude.{◌≡◌};
ghost use Rattle.encoding.specs.Validity.{is_text};

use encoding::validity;

// Whether the bytes are UTF-8.
pub fn is_utf8(w: &[u8]) -> bool
    ensures { result ≡ is_text w.now }
{
    validity::is_utf8(w)
}
