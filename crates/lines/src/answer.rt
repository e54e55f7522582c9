// A text that is answered in a buffer.
ghost use Rattle.std.specs.Prelude.{◌≡◌, List, ℕ};
ghost use Rattle.rules.specs.Converter.{answer_text};
ghost use Rattle.rules.specs.Form.{Good};
ghost use Rattle.rules.specs.Mapper.{map_reply};
ghost use Rattle.rules.specs.Outcome.{outcome};
ghost use Rattle.lines.specs.Front.{Written};

use rules::{Reason, Refusal};

// The text that `write` lays, or 11 where the buffer is too short. Its length comes first, of a text that goes into no byte.
pub fn answer<F: Fn(&mut [u8]) -> usize>(out: &mut [u8], write: F) -> Result<usize, Refusal>
    requires { F.IsAlwaysCallable write }
    ensures { (t : List ℕ) → ((before : _) (n : ℕ) (after : _) → F.post write before n after → Written t before.now n after.now) → outcome (map_reply result) out.new ≡ answer_text out.old (Good t) }
{
    let size = write(&mut out[..0]);
    if out.len() < size {
        return Err(Refusal::of_whole(Reason::ShortBuffer));
    }
    write(&mut out[..size]);
    Ok(size)
}
