// Bytes written at a place of a lent output.
ghost use Rattle.std.specs.Prelude.{◌≡◌, [], ◌∷◌, ◌++◌, ◌+◌, ◌≤◌, ◌<◌, length, take, drop};
ghost use Rattle.writing.specs.Put.{put};

// The two bytes that part fields and lines.
pub const TAB: u8 = 0x09;

pub const LF: u8 = 0x0A;

// The bytes that are written in one move.
const BLOCK: usize = 16;

// Writes one byte at place `at`, and gives the place after it.
pub fn put_byte(out: &mut [u8], at: usize, b: u8) -> usize
    requires { at < length out.old }
    ensures value { result ≡ at + 1 }
    ensures out_after { out.new ≡ put at (b ∷ []) out.old }
{
    out[at] = b;
    at + 1
}

// Writes the first n bytes of s at place `at`, and gives the place after them.
pub fn put_bytes(out: &mut [u8], at: usize, s: &[u8], n: usize) -> usize
    requires n_in_bounds { n ≤ length s.now }
    requires n_in_bounds_2 { at + n ≤ length out.old }
    ensures value { result ≡ at + n }
    ensures out_after { out.new ≡ put at (take n s.now) out.old }
{
    // Of no bytes nothing is copied: a call that copies costs more than this test.
    if n == 0 {
        return at;
    }
    out[at..at + n].copy_from_slice(&s[..n]);
    at + n
}

// Writes all of s at place `at`, and gives the place after it: 16 to 32 bytes by their first 16 and their last 16, which may overlap, so that
// they need no loop.
pub fn put_all(out: &mut [u8], at: usize, s: &[u8]) -> usize
    requires { at + length s.now ≤ length out.old }
    ensures value { result ≡ at + length s.now }
    ensures out_after { out.new ≡ put at s.now out.old }
{
    let n = s.len();
    if BLOCK <= n {
        if n <= 2 * BLOCK {
            put_bytes(out, at, s, BLOCK);
            put_bytes(out, at + n - BLOCK, &s[n - BLOCK..], BLOCK);
            return at + n;
        }
    }
    put_bytes(out, at, s, n)
}

// Copies all of s to the front of the output, and gives its length.
pub fn copy(s: &[u8], out: &mut [u8]) -> usize
    requires { length s.now ≤ length out.old }
    ensures value { result ≡ length s.now }
    ensures out_after { out.new ≡ take (length s.now) s.now ++ drop (length s.now) out.old }
{
    let n = s.len();
    out[..n].copy_from_slice(s);
    n
}
