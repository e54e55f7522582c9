// BootstrapLookup: whether a sum is bootstrapped already.
ghost use Rattle.std.specs.Prelude.{◌≡◌, true, ◌<◌, length};
ghost use Rattle.rules.specs.Network.{Linear, node_at};
ghost use Rattle.rules.specs.Store.{linear_terms, has_bootstrap};
ghost use Rattle.nodes.specs.Store.{store_of};
ghost use Rattle.nodes.specs.Terms.{terms_in, GoodTerms};
ghost use Rattle.nodes.specs.View.{lut_node};
ghost use Rattle.lut.specs.Reuse.{takes_node};

use crate::order::linear_terms;
use nodes::node::LutNode;
use nodes::store::Store;
use nodes::terms::Terms;

// Whether node i is a bootstrap of an equal node.
#[tactic(auto, using(crate::specs::Reuse::boot_below, crate::specs::Equal::node_same), unfolding(crate::specs::Reuse::takes_node, nodes::specs::View::lut_node))]
fn takes(store: &Store, i: usize, node: &LutNode) -> bool
    requires { i < length (store_of store.now) }
    ensures { result ≡ takes_node (lut_node node.now) (store_of store.now) (node_at (store_of store.now) i) }
{
    match store.node(i) {
        LutNode::Bootstrap { source, .. } => node == store.node(source.get()),
        _ => false,
    }
}

// Whether a bootstrap takes an equal node. By place: that a source is a node before it is known of node i.
fn is_taken(store: &Store, node: &LutNode) -> bool
    ensures { result ≡ has_bootstrap (store_of store.now) (lut_node node.now) }
{
    (0..store.len()).any(|i| takes(store, i, node))
}

// has_bootstrap, of the sum with these terms (there are many tables a sum).
#[tactic(auto, using(crate::specs::Store::arranged))]
pub fn has_bootstrap(store: &Store, t: Terms) -> bool
    requires { GoodTerms (length (store_of store.now)) t }
    ensures { result ≡ has_bootstrap (store_of store.now) (Linear t.constant (linear_terms true (terms_in t))) }
{
    is_taken(store, &LutNode::of_terms(linear_terms(true, t)))
}
