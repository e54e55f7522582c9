// A number below 65536 in two bytes: a node's, or a depth.
ghost use Rattle.std.specs.Prelude.{◌≡◌, ◌<◌, nat_eq};
ghost use Rattle.std.specs.Cmp.{nat_eq_equiv, partial_equiv_from_equiv};

use std::marker::Model;

// No u16: that lies at even addresses alone, so a term would take four bytes, and between the nodes of a store would be bytes that hold nothing,
// around which the compiler sets up each node on its own: a store of nodes of 42 bytes at even addresses took 3.6 µs to set up (`Store::new`, measured), one of
// nodes of 39 bytes 0.15 µs.
#[derive(Clone, Copy, Default)]
pub struct Number {
    low: u8,
    high: u8,
}

// Contracts see it as the number.
impl Model for Number {
    ghost use Rattle.std.specs.Prelude.{ℕ, ◌+◌, ◌*◌, ◌/◌, ◌%◌, ◌<◌};
    ghost use Rattle.packed.specs.Number.{low_back, high_back};

    ghost Value = { ℕ };

    ghost view = { λ a. a.low + 256 * a.high };

    ghost invariant = { λ a. a.low < 256 };

    ghost inverse = { λ n. record { low = n % 256; high = n / 256 } };

    ghost inverse_ok = { λ a h i. record { low = low_back a.low a.high h i; high = high_back a.low a.high h i } };
}

impl Number {
    pub fn new(number: usize) -> Number
        requires { number < 65536 }
        ensures { result ≡ number }
    {
        let [low, high] = (number as u16).to_le_bytes();
        Number { low, high }
    }

    #[inline]
    pub fn get(self) -> usize
        ensures { result ≡ self }
    {
        u16::from_le_bytes([self.low, self.high]) as usize
    }
}

// By hand: a derived one would compare the bytes, and so contracts n % 256 and n / 256.
impl PartialEq for Number {
    ghost eq = { nat_eq };

    ghost laws = { partial_equiv_from_equiv nat_eq_equiv };

    fn eq(&self, other: &Number) -> bool {
        self.get() == other.get()
    }
}

impl Eq for Number {
    ghost laws = { nat_eq_equiv };
}
