// A front that stands in for another: the vowels of the other's summary and no more. Words with one tail behind either fare alike, and this one
// has at most nine characters.
ghost use Rattle.std.specs.Prelude.{◌≡◌, ◌+◌, ◌≤◌, length};
ghost use Rattle.encoding.specs.Encoding.{encode_all};
ghost use Rattle.writing.specs.Put.{put};
ghost use Rattle.vowels.specs.Vowel.{vowel_numbered, most_vowel_bytes};
ghost use Rattle.fronts.specs.StandIn.{stand_in_of, stand_in_room};

use turkish::summary::Summary;
use vowels::vowel::Vowel;
use writing::letter::Letter;

// Writes the vowel of a number at place `at`, nothing where it has none, and gives the place after it.
fn put_vowel(out: &mut [u8], at: usize, number: usize) -> usize
    requires { at + most_vowel_bytes ≤ length out.old }
    ensures value { result ≡ at + length (encode_all (vowel_numbered number)) }
    ensures out_after { out.new ≡ put at (encode_all (vowel_numbered number)) out.old }
{
    let Some(v) = Vowel::numbered(number) else {
        return at;
    };
    Letter::of(v.ch).put(out, at)
}

// Writes the stand-in for the fronts of a summary, and gives its length: each vowel that is counted, once, and the last one.
pub fn put_stand_in(s: Summary, out: &mut [u8]) -> usize
    requires { stand_in_room ≤ length out.old }
    ensures value { result ≡ length (stand_in_of s) }
    ensures out_after { out.new ≡ put 0 (stand_in_of s) out.old }
{
    let mut at = 0;
    for k in 0..8 {
        if s.counts[k] != 0 {
            at = put_vowel(out, at, k + 1);
        }
    }
    put_vowel(out, at, s.last)
}
