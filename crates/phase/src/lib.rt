// Phases on the 32-bit circle (document 02, S-5 and S-8): a value stands at a phase, an error is added, and the nearest slot is found.
// It leans on no other code but `rules`.
#![tactic(auto)]

ghost use Rattle.std.specs.Prelude.{◌≡◌, ◌^◌, ◌<◌, true, false, pos, ◌+ℤ◌, unsigned_abs, MatchOption};
ghost use Rattle.laws.specs.Modulo.{modulo};
ghost use Rattle.rules.specs.Phase.{is_period, is_value, step, phase, nearer as nearerSlot, nearest as nearestSlot, slot_answer, slot_reply};

use rules::Reason;

// P is 2, 4, 8 or 16.
#[tactic(auto, using(laws::specs::Tests::tests), unfolding(rules::specs::Phase::is_period))]
fn is_period(p: usize) -> bool
    ensures { result ≡ is_period p }
{
    matches!(p, 2 | 4 | 8 | 16)
}

// A phase with an error added: phases wrap at 2^32.
#[tactic(auto, using(crate::specs::Reckoned::moved_is))]
fn moved(x: u32, e: i32) -> u32
    ensures { result ≡ modulo (pos x +ℤ e) (2 ^ 32) }
{
    x.wrapping_add_signed(e)
}

// The nearer of slots k and k + 1 for a phase that is so far past slot k; exactly between the two the even one.
#[tactic(auto, using(laws::specs::Tests::tests), unfolding(rules::specs::Phase::nearer))]
fn nearer(half: u32, k: usize, past: u32) -> usize
    requires { k < 2 ^ 32 }
    ensures { result ≡ nearerSlot half k past }
{
    if past < half || past == half && k % 2 == 0 {
        k
    } else {
        k + 1
    }
}

// A P that is 2, 4, 8 or 16.
#[derive(Clone, Copy)]
struct Period {
    p: usize,
    ghost one_of_four: { is_period p ≡ true },
}

impl Period {
    fn new(p: usize) -> Option<Period>
        ensures { MatchOption result (is_period p ≡ false) (λ d. d.p ≡ p) }
    {
        // Not `then_some`, which would build a Period of any p.
        if is_period(p) {
            Some(Period { p })
        } else {
            None
        }
    }

    // v is one of the values 0 to 2P - 1.
    fn is_value(self, v: i32) -> bool
        ensures { result ≡ is_value self.p v }
    {
        v >= 0 && (v.unsigned_abs() as usize) < 2 * self.p
    }

    // From one slot to the next.
    fn step(self) -> u32
        ensures { result ≡ step self.p }
    {
        (0x8000_0000 / self.p) as u32
    }

    // Where v stands, with the error added.
    fn phase(self, v: i32, e: i32) -> u32
        requires { is_value self.p v ≡ true }
        ensures { result ≡ phase self.p (unsigned_abs v) e }
    {
        moved(v.unsigned_abs() * self.step(), e)
    }

    // The nearest slot; behind slot 2P - 1 comes slot 0.
    fn nearest(self, phase: u32) -> usize
        ensures { result ≡ nearestSlot self.p phase }
    {
        let step = self.step();
        let k = (phase / step) as usize;
        nearer(step / 2, k, phase % step) % (2 * self.p)
    }
}

// The slot of value v with error e, for P of 2, 4, 8 or 16.
#[tactic(auto, using(laws::specs::Tests::tests), unfolding(rules::specs::Phase::slot_answer, rules::specs::Phase::slot))]
pub fn slot(p: usize, v: i32, e: i32) -> Result<usize, Reason>
    ensures { slot_reply result ≡ slot_answer p v e }
{
    let period = Period::new(p).ok_or(Reason::BadPeriod)?;
    if !period.is_value(v) {
        return Err(Reason::BadValue);
    }
    Ok(period.nearest(period.phase(v, e)))
}
