// The depth of a node: how many bootstraps lie one behind another up to it.
ghost use Rattle.std.specs.Prelude.{◌≡◌, ◌≤◌, length};
ghost use Rattle.rules.specs.Network.{node_depth, largest, depth};
ghost use Rattle.nodes.specs.View.{Fine, FineTerms, lut_node, terms_seen};
ghost use Rattle.nodes.specs.Store.{store_of};

use crate::node::{LutNode, Term};
use crate::store::Store;

impl Store {
    // The depth of the deepest of these terms' nodes.
    #[tactic(auto, using(crate::specs::Depth::deepening))]
    fn deepest(&self, terms: &[Term]) -> usize
        requires { FineTerms (length (store_of self.now)) (terms_seen terms.now) }
        ensures { (result ≡ largest (λ t. depth (store_of self.now) t.node) (terms_seen terms.now)) × (result ≤ length (store_of self.now)) }
    {
        let mut deepest = 0;
        for term in terms {
            deepest = self.depth(term.node.get()).max(deepest);
        }
        deepest
    }

    // What a node's sources give: one more for a bootstrap.
    #[tactic(auto, using(crate::specs::Depth::next_small, crate::specs::Depth::depth_small, crate::specs::Store::store_few), unfolding(crate::specs::View::lut_node, crate::specs::View::Fine, rules::specs::Network::node_depth))]
    pub fn depth_of(&self, node: &LutNode) -> usize
        requires { Fine (length (store_of self.now)) (lut_node node.now) }
        ensures { (result ≡ node_depth (depth (store_of self.now)) (lut_node node.now)) × (result ≤ length (store_of self.now)) }
    {
        match node {
            LutNode::Input { .. } => 0,
            LutNode::Linear { terms, .. } => self.deepest(terms),
            LutNode::Bootstrap { source, .. } => self.depth(source.get()) + 1,
        }
    }
}
