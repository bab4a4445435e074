// Plain runs: bytes without their top bit, passed over eight at a time by one test of a 64-bit word.
ghost use Rattle.std.specs.Prelude.{◌≡◌, false, ◌%◌, ◌≤◌, ◌<◌, length, drop};
ghost use Rattle.std.specs.List.{list_all};
ghost use Rattle.encoding.specs.PlainRuns.{word_bytes, plain_next, joined, run_end_of};

// The top bit of each byte of a word.
const TOP_BITS: u64 = 0x8080808080808080;

// Eight bytes joined into a 64-bit word. Of this the compiler makes one load.
fn join(eight: &[u8; 8]) -> u64
    ensures { result ≡ joined word_bytes eight.now }
{
    u64::from_le_bytes(*eight)
}

// Whether none of eight bytes has its top bit set.
fn is_plain(eight: &[u8; 8]) -> bool
    ensures { result ≡ plain_next word_bytes eight.now }
{
    join(eight) & TOP_BITS == 0
}

// Whether none of some eights has. Each is looked at, whatever the others gave, so that the compiler makes one test of all.
fn are_plain(eights: &[[u8; 8]]) -> bool
    ensures { result ≡ list_all (plain_next word_bytes) eights.now }
{
    eights
        .iter()
        .fold(true, |plain, eight| plain & is_plain(eight))
}

// On from a place by N bytes at a time, which are whole eights, as long as none of them has its top bit set. The place is moved by hand: with the
// eights counted by `take_while` and `count` Turkish words of 1,000 bytes took 1.2 times as long.
fn skip_plain<const N: usize>(w: &[u8], from: usize) -> usize
    requires nonzero { 0 < N }
    requires whole_eights { N % word_bytes ≡ 0 }
    requires from_in_bounds { from ≤ length w.now }
    ensures upper_bound { result ≤ length w.now }
    ensures same_run { run_end_of w.now result ≡ run_end_of w.now from }
    ensures stops { plain_next N (drop result w.now) ≡ false }
{
    let mut i = from;
    while N <= w.len() - i {
        let (eights, _) = w[i..i + N].as_chunks::<8>();
        if !are_plain(eights) {
            return i;
        }
        i += N;
    }
    i
}

// The skipping step: on in whole eights, as far as none of the next eight has its top bit set. Long runs go by four eights a turn; those of a
// turn that fails are looked at again one by one.
pub fn run_end(w: &[u8], from: usize) -> usize
    requires { from ≤ length w.now }
    ensures { result ≡ run_end_of w.now from }
{
    skip_plain::<8>(w, skip_plain::<32>(w, from))
}
