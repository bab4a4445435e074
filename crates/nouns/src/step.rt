// From what is seen from one record to what is seen from another, back in the text.
ghost use Rattle.std.specs.Prelude.{◌≡◌};
ghost use Rattle.utf8.specs.Steps.{move_to};
ghost use Rattle.utf8.specs.Behind.{Open};
ghost use Rattle.keys.specs.Seen.{seen_at};

use keys::seen;
use keys::seen::Seen;

// What is seen from place p, to which a step came.
pub fn step_to(w: &[u8], s: Seen, p: usize) -> Seen
    requires { Open w.now (move_to s.c p) }
    ensures { result ≡ seen_at w.now (move_to s.c p) }
{
    seen::look_back(w, s.c.moved_to(p))
}
