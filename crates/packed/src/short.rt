// A list in place, of at most 255 items, whose count takes one byte.
ghost use Rattle.std.specs.Prelude.{◌≡◌, [], ◌∷◌, ◌++◌, ◌<◌, ◌≤◌, length};
ghost use Rattle.std.specs.Cmp.{on_equiv, on_per};
ghost use Rattle.std.specs.Cmp.Lexicographic.{pointwise, lists_per, lists_equiv};

use std::marker::Model;
use std::ops::DerefSlice;

// No ArrayVec: its count takes eight bytes, and then the store is larger than the first cache, which costs jobs of a gate or two as much as all else;
// nor is it `Copy`, as a sum's terms and a circuit are.
#[derive(Clone, Copy)]
pub struct Short<T, const N: usize> {
    places: [T; N],
    count: u8,
}

// Contracts see it by its items, as they see an ArrayVec. What stands behind them they may not name; with it a value gives its fields back, so it is `Copy`.
impl<T, const N: usize> Model for Short<T, N> {
    ghost use Rattle.std.specs.Prelude.{◌≡◌, ◌≤◌, ◌++◌, length, take, drop};
    ghost use Rattle.std.proofs.Common.{arith, take-append-drop, length-take-le};
    ghost use Rattle.packed.specs.Short.{Short as Items, short_code};

    ghost Value = { Items T };

    ghost coded = { short_code T.code };

    ghost view = { λ s. record { items = take s.count s.places; spare = drop s.count s.places } };

    ghost invariant = { λ s. (s.count ≤ N) × (length s.places ≡ N) };

    ghost inverse = { λ s. record { places = s.items ++ s.spare; count = length s.items } };

    ghost inverse_ok = { λ s h i. record {
      places = take-append-drop s.count s.places i;
      count = length-take-le s.count s.places (omega (arith, h.0, h.1)) i;
    } };
}

impl<T: Default, const N: usize> Short<T, N> {
    // Of no items.
    pub fn new() -> Self
        ensures { result.items ≡ [] }
    {
        Short {
            places: Default::default(),
            count: 0,
        }
    }
}

impl<T: Copy + Default, const N: usize> Short<T, N> {
    // Of these.
    pub fn from_slice(items: &[T]) -> Self
        requires { (length items.now ≤ N) × (N < 256) }
        ensures { result.items ≡ items.now }
    {
        let mut places: [T; N] = Default::default();
        places[..items.len()].copy_from_slice(items);
        Short {
            places,
            count: items.len() as u8,
        }
    }
}

impl<T, const N: usize> Short<T, N> {
    // Of no items again.
    pub fn clear(&mut self)
        ensures { self.new.items ≡ [] }
    {
        self.count = 0;
    }
}

impl<T: Drop, const N: usize> Short<T, N> {
    // One more, at the end.
    pub fn push(&mut self, item: T)
        requires { (length self.old.items < N) × (N < 256) }
        ensures { self.new.items ≡ self.old.items ++ item ∷ [] }
    {
        self.places[self.count as usize] = item;
        self.count += 1;
    }
}

impl<T, const N: usize> Short<T, N> {
    // How many there are.
    #[inline]
    pub fn len(&self) -> usize
        ensures { (result ≡ length self.now.items) × (result ≤ N) }
    {
        self.count as usize
    }

    // The items, lent.
    #[inline]
    pub fn as_slice(&self) -> &[T]
        ensures items { result.now ≡ self.now.items }
        ensures few { length result.now ≤ N }
    {
        &self.places[..self.count as usize]
    }
}

impl<T, const N: usize> DerefSlice for Short<T, N> {
    type Elem = T;

    ghost deref_gives = { λ s items. (items ≡ s.items) × (length items ≤ N) };

    #[inline]
    fn deref(&self) -> &[T] {
        self.as_slice()
    }
}

// By hand: what stands behind the count does not matter.
impl<T: PartialEq, const N: usize> PartialEq for Short<T, N> {
    ghost eq = { λ s t. pointwise T.eq s.items t.items };

    ghost laws = { on_per (λ s. s.items) (lists_per T.laws) };

    fn eq(&self, other: &Self) -> bool {
        self.as_slice() == other.as_slice()
    }
}

impl<T: Eq, const N: usize> Eq for Short<T, N> {
    ghost laws = { on_equiv (λ s. s.items) (lists_equiv T.Eq.laws) };
}
