// The store of a network's nodes.
ghost use Rattle.std.specs.Prelude.{◌≡◌, [], ◌≤◌, ◌<◌, length};
ghost use Rattle.rules.specs.Network.{depths};
ghost use Rattle.nodes.specs.View.{nodes_of, depths_of, AllFine, AllFine_prop};

use crate::node::LutNode;
use arrayvec::ArrayVec;
use packed::number::Number;

// A node, how many bootstraps lie one behind another up to it, and the centre of its table. Of a node that has none it is 0, as the definition `node_centre`
// has it: an Option, which takes a byte more, would be no plainer.
// The centre is not in the node: nodes are shared where they are `==`, and a bootstrap's equality is that of its source and its table alone.
#[derive(Drop, Default)]
pub struct Stored {
    pub node: LutNode,
    pub depth: Number,
    pub centre: u8,
}

// The nodes in order. Each leans on nodes before it alone, its numbers are within their limits, and its depth is the definition's.
// That there is room for one more, or a node of number i, is of one call, so functions ask it and no type says it.
#[derive(Drop)]
pub struct Store {
    pub nodes: ArrayVec<Stored, 672>,
    ghost few: { length nodes.items ≤ 672 },
    ghost fine: { AllFine (nodes_of nodes.items) } by { AllFine_prop (nodes_of nodes.items) },
    ghost deep: { depths_of nodes.items ≡ depths (nodes_of nodes.items) },
}

impl Store {
    ghost use Rattle.std.specs.Prelude.{◌≡◌, [], ◌≤◌, ◌<◌, length};
    ghost use Rattle.rules.specs.Network.{node_at, depth, weight_of};
    ghost use Rattle.nodes.specs.View.{Fine, lut_node, table_in};
    ghost use Rattle.nodes.specs.Store.{store_of, centre_in, Adds};

    #[tactic(auto, unfolding(crate::specs::Store::store_of, crate::specs::View::nodes_of, crate::specs::View::depths_of, crate::specs::View::AllFine, rules::specs::Network::depths, rules::specs::Network::depths_from))]
    pub fn new() -> Store
        ensures { store_of result ≡ [] }
    {
        Store {
            nodes: ArrayVec::new(),
        }
    }

    // Without nodes, as a new one.
    #[tactic(auto, unfolding(crate::specs::Store::store_of, crate::specs::View::nodes_of, crate::specs::View::depths_of, crate::specs::View::AllFine, rules::specs::Network::depths, rules::specs::Network::depths_from))]
    pub fn clear(&mut self)
        ensures { store_of self.new ≡ [] }
    {
        self.nodes.clear();
    }

    // How many there are.
    #[tactic(auto, unfolding(crate::specs::Store::store_of, crate::specs::View::nodes_of))]
    pub fn len(&self) -> usize
        ensures { (result ≡ length (store_of self.now)) × (result ≤ 672) }
    {
        self.nodes.len()
    }

    // Node i.
    #[tactic(auto, using(crate::specs::Seen::reads))]
    pub fn node(&self, i: usize) -> &LutNode
        requires { i < length (store_of self.now) }
        ensures { lut_node result.now ≡ node_at (store_of self.now) i }
    {
        &self.nodes[i].node
    }

    // An input's weight; of any other node 1.
    #[tactic(auto, using(crate::specs::Seen::reads))]
    pub fn weight(&self, i: usize) -> u8
        requires { i < length (store_of self.now) }
        ensures { (result ≡ weight_of (node_at (store_of self.now) i)) × (result ≤ 64) }
    {
        self.node(i).weight()
    }

    // How many bootstraps lie one behind another up to node i.
    #[tactic(auto, using(crate::specs::Seen::reads))]
    pub fn depth(&self, i: usize) -> usize
        requires { i < length (store_of self.now) }
        ensures { result ≡ depth (store_of self.now) i }
    {
        self.nodes[i].depth.get()
    }

    // The centre of a bootstrap's table; of any other node 0.
    #[tactic(auto, using(crate::specs::Seen::reads))]
    pub fn centre(&self, i: usize) -> usize
        requires { i < length (store_of self.now) }
        ensures { result ≡ centre_in self.now i }
    {
        self.nodes[i].centre as usize
    }

    // The table of a bootstrap, lent as a part of the store: no copy. Any other node has none.
    pub fn table_of(&self, i: usize) -> &[u8]
        requires { i < length (store_of self.now) }
        ensures { result.now ≡ table_in (node_at (store_of self.now) i) }
    {
        match self.node(i) {
            LutNode::Input { .. } => &[],
            LutNode::Linear { .. } => &[],
            LutNode::Bootstrap { table, .. } => table,
        }
    }

    // One node more, with the depth that its sources give and the centre that it is handed.
    pub fn push(&mut self, node: LutNode, centre: u8)
        requires { (length (store_of self.old) < 672) × Fine (length (store_of self.old)) (lut_node node) }
        ensures { Adds centre (lut_node node) self.old self.new }
    {
        let depth = self.depth_of(&node);
        self.nodes.push(Stored {
            node,
            depth: Number::new(depth),
            centre,
        });
    }
}
