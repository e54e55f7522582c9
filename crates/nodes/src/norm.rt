// The norm of a node: each squared coefficient of a sum times its source's weight, added; of an input or a bootstrap its weight.
ghost use Rattle.std.specs.Prelude.{◌≡◌, ◌*◌, ◌≤◌, ◌<◌, nat_abs, length};
ghost use Rattle.rules.specs.Network.{weight_of, norm, node_at, node_norm};
ghost use Rattle.nodes.specs.View.{FineTerms, terms_seen};
ghost use Rattle.nodes.specs.Store.{store_of};
ghost use Rattle.nodes.specs.Terms.{terms_in, GoodTerms};

use crate::node::{LutNode, Term, terms_of};
use crate::store::Store;
use crate::terms::Terms;

// Not `scale`'s: a node's coefficients are smaller, and this crate does not lean on `scale`.
fn square(x: i64) -> u64
    requires { nat_abs x ≤ 31 }
    ensures { (result ≡ nat_abs x * nat_abs x) × (result ≤ 961) }
{
    (x * x) as u64
}

impl Store {
    // What a source with this coefficient adds to a norm.
    #[tactic(auto, using(crate::specs::Norm::source_norm_lem))]
    pub fn source_norm(&self, source: usize, coef: i64) -> u64
        requires { (source < length (store_of self.now)) × (nat_abs coef ≤ 31) }
        ensures { (result ≡ (nat_abs coef * nat_abs coef) * weight_of (node_at (store_of self.now) source)) × (result ≤ 61504) }
    {
        square(coef) * u64::from(self.weight(source))
    }

    // Those of a sum's terms, added.
    #[tactic(auto, using(crate::specs::Norm::summing))]
    fn norm_of(&self, terms: &[Term]) -> u64
        requires { FineTerms (length (store_of self.now)) (terms_seen terms.now) × (length terms.now ≤ 11) }
        ensures { result ≡ norm (store_of self.now) (terms_seen terms.now) }
    {
        let mut sum = 0;
        for term in terms {
            sum += self.source_norm(term.node.get(), term.coef as i64);
        }
        sum
    }

    // The norm that a sum of these terms would have.
    #[tactic(auto, using(crate::specs::Norm::good_stored, crate::specs::Norm::good_seen))]
    pub fn norm_with(&self, t: &Terms) -> u64
        requires { GoodTerms (length (store_of self.now)) t.now }
        ensures { result ≡ norm (store_of self.now) (terms_in t.now) }
    {
        self.norm_of(&terms_of(t))
    }

    // The norm of node i.
    #[tactic(auto, unfolding(crate::specs::View::lut_node))]
    pub fn norm(&self, i: usize) -> u64
        requires { i < length (store_of self.now) }
        ensures { result ≡ node_norm (store_of self.now) (node_at (store_of self.now) i) }
    {
        match self.node(i) {
            LutNode::Linear { terms, .. } => self.norm_of(terms),
            LutNode::Input { weight, .. } => *weight as u64,
            LutNode::Bootstrap { .. } => 1,
        }
    }
}
