// Words of ASCII without I: each byte is folded where it stands, by the same test for every byte, so that many can be folded in one step.
ghost use Rattle.std.specs.Prelude.{◌≡◌, map, ◌≤◌, length};
ghost use Rattle.turkish.specs.Calls.{written};
ghost use Rattle.folding.specs.FoldBytes.{small_byte, plain};

use crate::step;

// Whether the word is one of these.
pub(crate) fn is_plain(w: &[u8]) -> bool
    ensures { result ≡ plain w.now }
{
    let mut ok = true;
    for &b in w {
        ok &= (b < 0x80) & (b != 0x49);
    }
    ok
}

// Writes each byte folded.
pub(crate) fn write_plain(w: &[u8], out: &mut [u8])
    requires { length w.now ≤ length out.old }
    ensures { out.new ≡ written (map small_byte w.now) out.old }
{
    for (i, &b) in w.iter().enumerate() {
        out[i] = step::small(b);
    }
}
