// The bits that a run is handed. It leans on no other code.
#![tactic(auto)]

ghost use Rattle.std.specs.Prelude.{◌≡◌};
ghost use Rattle.rules.specs.Runs.{bits_for};

// Whether there is a bit for each of n inputs.
#[tactic(auto, unfolding(rules::specs::Runs::bits_for))]
pub fn are_bits_for(n: usize, bits: &[u8]) -> bool
    ensures { result ≡ bits_for n bits.now }
{
    bits.len() == n && bits.iter().all(|&b| b <= 1)
}
