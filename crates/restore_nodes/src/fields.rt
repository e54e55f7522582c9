// Numbers of a kept state.
ghost use Rattle.std.specs.Prelude.{◌≡◌, ◌+◌, ◌*◌, ◌<◌, ◌≤◌, ℤ, nat_abs, IfSome, Some};
ghost use Rattle.retuning.specs.Kept.{signed_byte};

// The low byte first.
pub fn number(low: u8, high: u8) -> usize
    ensures is { result ≡ low + 256 * high }
    ensures small { result < 65536 }
{
    u16::from_le_bytes([low, high]) as usize
}

// A coefficient, counted from -128; none where it is not within 31 either way.
#[tactic(auto, using(retuning::specs::Fields::signed_back))]
pub fn read_coef(byte: u8) -> Option<i64>
    ensures sound { IfSome result (λ c. nat_abs c ≤ 31) }
    ensures complete { (c : ℤ) → nat_abs c ≤ 31 → byte ≡ signed_byte c → result ≡ Some c }
{
    let coef = i64::from(byte) - 128;
    (-31..=31).contains(&coef).then_some(coef)
}
