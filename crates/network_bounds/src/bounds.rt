// A node's bounds.
ghost use Rattle.std.specs.Prelude.{◌≡◌, ◌≤◌, ◌<◌, ◌&&◌, ◌+ℤ◌, pos, nat_abs, length};
ghost use Rattle.laws.specs.Integer.{eq_z};
ghost use Rattle.rules.specs.Network.{Linear, node_at, least_sum, greatest_sum, least_of, greatest_of, is_linear};
ghost use Rattle.rules.specs.NetworkText.{is_bit};
ghost use Rattle.nodes.specs.Store.{store_of};
ghost use Rattle.nodes.specs.View.{lut_node, terms_seen, Fine};

use nodes::node::{LutNode, Term};
use nodes::store::Store;

// The node is a sum.
#[tactic(auto, unfolding(nodes::specs::View::lut_node, rules::specs::Network::is_linear))]
pub fn is_sum(node: &LutNode) -> bool
    ensures { result ≡ is_linear (lut_node node.now) }
{
    matches!(node, LutNode::Linear { .. })
}

// The least and the greatest that a node can be. Not known_rows' `Bounds`: that has a builder's values, which are `i32`; a network's sums are `i64`.
struct Bounds {
    least: i64,
    greatest: i64,
}

// Those of a sum.
fn sum_bounds(constant: i8, terms: &[Term]) -> Bounds
    requires { Fine 672 (Linear constant (terms_seen terms.now)) }
    ensures least { (result.least ≡ least_sum constant (terms_seen terms.now)) × (nat_abs result.least ≤ 372) }
    ensures greatest { (result.greatest ≡ greatest_sum constant (terms_seen terms.now)) × (nat_abs result.greatest ≤ 372) }
{
    let mut least = constant as i64;
    let mut greatest = constant as i64;
    for term in terms {
        let coef = term.coef as i64;
        least += coef.min(0);
        greatest += coef.max(0);
    }
    Bounds { least, greatest }
}

// Those of node i.
#[tactic(auto, using(nodes::specs::View::seen, crate::proofs::Summing::sums), unfolding(nodes::specs::View::lut_node, rules::specs::Network::least_of, rules::specs::Network::greatest_of))]
fn node_bounds(store: &Store, i: usize) -> Bounds
    requires { i < length (store_of store.now) }
    ensures least { (result.least ≡ least_of (node_at (store_of store.now) i)) × (nat_abs result.least ≤ 372) }
    ensures greatest { (result.greatest ≡ greatest_of (node_at (store_of store.now) i)) × (nat_abs result.greatest ≤ 372) }
{
    match store.node(i) {
        LutNode::Linear { constant, terms } => sum_bounds(*constant, terms),
        LutNode::Input { .. } | LutNode::Bootstrap { .. } => Bounds {
            least: 0,
            greatest: 1,
        },
    }
}

// A node's bounds are 0 to n - 1: those that a table of n bits asks for.
#[tactic(auto, using(crate::proofs::Fits::fits))]
pub fn fits(store: &Store, i: usize, n: usize) -> bool
    requires { (i < length (store_of store.now)) × (n ≤ 32) }
    ensures { result ≡ (eq_z (least_of (node_at (store_of store.now) i)) (pos 0) && eq_z (greatest_of (node_at (store_of store.now) i) +ℤ pos 1) (pos n)) }
{
    let Bounds { least, greatest } = node_bounds(store, i);
    least == 0 && greatest + 1 == n as i64
}

// A node's bounds are within 0..1.
#[tactic(auto, using(crate::proofs::Held::held_small), unfolding(rules::specs::NetworkText::is_bit))]
pub fn is_bit(store: &Store, i: usize) -> bool
    requires { i < length (store_of store.now) }
    ensures { result ≡ is_bit (node_at (store_of store.now) i) }
{
    let Bounds { least, greatest } = node_bounds(store, i);
    least >= 0 && greatest <= 1
}
