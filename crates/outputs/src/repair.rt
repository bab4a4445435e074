// A repaired text written to a lent output: the first bytes of the word, and the letter behind them, if one follows.
ghost use Rattle.std.specs.Prelude.{◌≡◌, ◌+◌, ◌≤◌, length};
ghost use Rattle.turkish.specs.Calls.{written};
ghost use Rattle.repairs.specs.Repairs.{letter_bytes, repair_text};

use repairs::postlude::Repair;
use writing::put;

// Writes the text of a repair of w, and gives its length.
pub(crate) fn write_repair(w: &[u8], r: Repair, out: &mut [u8]) -> usize
    requires keep_in_bounds { r.keep ≤ length w.now }
    requires more_in_bounds { r.keep + length (letter_bytes r.letter) ≤ length out.old }
    ensures value { result ≡ length (repair_text w.now r) }
    ensures out_after { out.new ≡ written (repair_text w.now r) out.old }
{
    let keep = r.keep;
    put::copy(&w[..keep], out);
    let Some(letter) = r.letter else {
        return keep;
    };
    letter.put(out, keep)
}
