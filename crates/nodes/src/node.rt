// A node of the store, and one made of what a text or the mapper gives.
ghost use Rattle.std.specs.Prelude.{◌≡◌, [], ◌≤◌, ◌<◌, length};
ghost use Rattle.rules.specs.Network as rules;
ghost use Rattle.nodes.specs.Terms.{terms_in, GoodTerms};
ghost use Rattle.nodes.specs.View.{given, lut_node, terms_seen};

use crate::terms::Terms;
use packed::number::Number;
use packed::short::Short;

// One term of a sum: a coefficient and the number of its node.
#[derive(Clone, Copy, PartialEq, Eq, Default)]
pub struct Term {
    pub coef: i8,
    pub node: Number,
}

// A node (LutNode): numbers are small, so that many nodes lie close together, and of one byte's alignment, so that nothing lies between them.
#[derive(PartialEq, Eq, Drop)]
pub enum LutNode {
    Input {
        name: Short<u8, 16>,
        weight: u8,
    },
    Linear {
        constant: i8,
        terms: Short<Term, 11>,
    },
    Bootstrap {
        source: Number,
        table: Short<u8, 32>,
    },
}

// What the unused places of a store hold. It is of zeros alone, so a store is set up at once.
impl Default for LutNode {
    #[tactic(auto, unfolding(crate::specs::View::lut_node))]
    fn default() -> LutNode
        ensures { lut_node result ≡ rules.Input (given [] 0) }
    {
        LutNode::Input {
            name: Short::new(),
            weight: 0,
        }
    }
}

// A sum's terms as the store has them.
#[tactic(auto, using(crate::specs::Terms::made))]
pub fn terms_of(t: &Terms) -> Short<Term, 11>
    requires { GoodTerms 672 t.now }
    ensures { terms_seen result.items ≡ terms_in t.now }
{
    let mut terms = Short::new();
    for term in t.terms.iter() {
        terms.push(Term {
            coef: term.coef as i8,
            node: Number::new(term.node),
        });
    }
    terms
}

impl LutNode {
    #[tactic(auto, unfolding(crate::specs::View::lut_node))]
    pub fn of_input(name: &[u8], weight: u8) -> LutNode
        requires { length name.now ≤ 16 }
        ensures { lut_node result ≡ rules.Input (given name.now weight) }
    {
        LutNode::Input {
            name: Short::from_slice(name),
            weight,
        }
    }

    #[tactic(auto, unfolding(crate::specs::View::lut_node))]
    pub fn of_terms(t: Terms) -> LutNode
        requires { GoodTerms 672 t }
        ensures { lut_node result ≡ rules.Linear t.constant (terms_in t) }
    {
        LutNode::Linear {
            constant: t.constant as i8,
            terms: terms_of(&t),
        }
    }

    #[tactic(auto, unfolding(crate::specs::View::lut_node))]
    pub fn of_table(source: usize, table: &[u8]) -> LutNode
        requires { (source < 672) × (length table.now ≤ 32) }
        ensures { lut_node result ≡ rules.Bootstrap source table.now }
    {
        LutNode::Bootstrap {
            source: Number::new(source),
            table: Short::from_slice(table),
        }
    }

    // An input's weight; of any other node 1.
    #[tactic(auto, unfolding(crate::specs::View::lut_node, rules::specs::Network::weight_of))]
    pub fn weight(&self) -> u8
        ensures { result ≡ rules.weight_of (lut_node self.now) }
    {
        match self {
            LutNode::Input { weight, .. } => *weight,
            LutNode::Linear { .. } | LutNode::Bootstrap { .. } => 1,
        }
    }
}
