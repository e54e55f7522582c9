// Cones: sources, a coefficient each, a bit for each assignment (first source the highest bit). A cone alone: its values, its order, a gate of one
// input behind it, and whether it may be bootstrapped. It leans on `linear`, `scale`, `rotation`, `known_rows` and the node store (`nodes`).
#![tactic(auto)]

pub mod order;
pub mod settings;
pub mod table;
pub mod unary;
pub mod valid;
pub mod weights;

ghost use Rattle.std.specs.Prelude.{◌≡◌, true, ℕ, ◌≤◌, ◌<◌, length, get_or, take};
ghost use Rattle.rules.specs.Cone.{linear_table};
ghost use Rattle.rules.specs.NetworkText.{all_different};
ghost use Rattle.rules.specs.Span.{span};
ghost use Rattle.cone.specs.Fields.{Held, Held_prop};

use crate::weights::weights_of;
use linear::{linear_least, linear_span};
use nodes::store::Store;
use rules::Entry;

// The first n sources and coefficients, and the truth of the rows at each value, the least value first: unknown where no row has it.
// What stands past the sources and past the span does not matter.
// At most 11 sources, all different nodes of a store; a span of at most 32; and the entries within the span are those that the rows make known.
// The lengths are said too: a proof does not know those of an array within a struct.
// It is read out of its place and handed on by value, and its coefficients are handed on as one slice: an `ArrayVec` is not `Copy`.
#[derive(Clone, Copy)]
pub struct Cone {
    pub n: usize,
    pub support: [usize; 11],
    pub coefs: [i64; 11],
    pub known: [Entry; 32],
    pub ghost support_long: { length support ≡ 11 },
    pub ghost coefs_long: { length coefs ≡ 11 },
    pub ghost entries_long: { length known ≡ 32 },
    pub ghost few: { n ≤ 11 },
    pub ghost different: { all_different (take n support) ≡ true },
    pub ghost near: { (i : ℕ) → get_or (take n support) i 0 < 672 },
    pub ghost narrow: { span (linear_table (take n coefs)) ≤ 32 },
    pub ghost held: { Held (take n coefs) known } by { Held_prop (take n coefs) known },
}

// A place that holds no wire yet: the constant 0.
impl Default for Cone {
    ghost use Rattle.std.specs.Prelude.{◌≡◌};
    ghost use Rattle.rules.specs.Cone.{constant};
    ghost use Rattle.cone.specs.View.{cone_of};

    fn default() -> Cone
        ensures { cone_of result ≡ constant 0 }
    {
        Cone::constant(0)
    }
}

impl Cone {
    ghost use Rattle.std.specs.Prelude.{◌≡◌, ◌≤◌, ◌<◌, length};
    ghost use Rattle.rules.specs.Cone as rules;
    ghost use Rattle.rules.specs.Span.{least};
    ghost use Rattle.scale.specs.Limits.{Within};
    ghost use Rattle.nodes.specs.Store.{store_of};
    ghost use Rattle.cone.specs.View.{cone_of, constant_of};
    ghost use Rattle.cone.specs.Sources.{Below};

    // A cone with no source.
    pub fn constant(value: u8) -> Cone
        requires { value ≤ 1 }
        ensures { cone_of result ≡ rules.constant value }
    {
        Cone {
            n: 0,
            support: [0; 11],
            coefs: [0; 11],
            known: [rotation::entry_of(value); 32],
        }
    }

    // The cone of one source.
    pub fn identity(node: usize) -> Cone
        requires { node < 672 }
        ensures { cone_of result ≡ rules.identity node }
    {
        let mut support = [0; 11];
        support[0] = node;
        let mut coefs = [0; 11];
        coefs[0] = 1;
        let mut known = [Entry::Zero; 32];
        known[1] = Entry::One;
        Cone {
            n: 1,
            support,
            coefs,
            known,
        }
    }

    // The bit of a cone with no source.
    #[tactic(auto, using(crate::specs::View::view_sources, rotation::specs::Entries::number_at), unfolding(crate::specs::View::constant_of, crate::specs::View::cone_of, crate::specs::Fields::truth_at, known_rows::specs::Entries::entry_at, rules::specs::Mapper::is_constant, rules::specs::Mapper::constant_value, rules::specs::Cone::linear_table, rules::specs::Span::least, rules::specs::Span::least_from))]
    pub fn constant_value(self) -> Option<u8>
        ensures { result ≡ constant_of (cone_of self) }
    {
        (self.n == 0).then_some(rotation::number_of(self.known[0]))
    }

    // The sources.
    #[tactic(auto, unfolding(crate::specs::View::cone_of))]
    pub fn sources(&self) -> &[usize]
        ensures are { result.now ≡ (cone_of self.now).support }
        ensures count { length result.now ≡ self.now.n }
    {
        &self.support[..self.n]
    }

    // Their coefficients.
    #[tactic(auto, using(crate::specs::View::small), unfolding(crate::specs::View::cone_of))]
    pub fn coefficients(&self) -> &[i64]
        ensures are { result.now ≡ (cone_of self.now).coefficients }
        ensures count { length result.now ≡ self.now.n }
        ensures small { Within 31 result.now }
    {
        &self.coefs[..self.n]
    }

    // The least value.
    #[tactic(auto, unfolding(rules::specs::Cone::values))]
    pub fn least(self) -> i64
        ensures { result ≡ least (rules.values (cone_of self)) }
    {
        linear_least(self.coefficients())
    }

    // The least and the greatest value, and all between: so many.
    #[tactic(auto, unfolding(rules::specs::Cone::values, rules::specs::Cone::cone_span))]
    pub fn span(self) -> usize
        ensures { result ≡ rules.cone_span (cone_of self) }
    {
        linear_span(self.coefficients())
    }

    // Each squared coefficient times its source's weight, added.
    pub fn norm2(self, store: &Store) -> u64
        requires { Below (length (store_of store.now)) (cone_of self) }
        ensures { result ≡ rules.norm2 (store_of store.now) (cone_of self) }
    {
        let weights = weights_of(store, self.sources());
        scale::coefficients_norm2(self.coefficients(), &weights)
    }
}
