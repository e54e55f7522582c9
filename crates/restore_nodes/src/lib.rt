// The node store of a kept state, read back from its bytes: every field is tested, since somebody may have altered them.
// It leans on the store (`nodes`) and on `rotation`.
#![tactic(auto)]

pub mod fields;
mod read;

ghost use Rattle.std.specs.Prelude.{◌≡◌, true, List, [], ◌∷◌, ◌++◌, ℕ, ◌+◌, ◌<◌, ◌≤◌, T, length};
ghost use mathlib.Core.List.{flat_map};
ghost use Rattle.rules.specs.Network.{LutNode as Node, node_at, node_centre};
ghost use Rattle.rules.specs.Runs.{all_bits};
ghost use Rattle.retuning.specs.GoodState.{GoodNode};
ghost use Rattle.retuning.specs.Kept.{two_bytes, padded, node_cell};
ghost use Rattle.nodes.specs.Store.{store_of, Centred};
ghost use Rattle.nodes.specs.View.{lut_node, table_in};

use crate::fields::number;
use crate::read::read_node;
use nodes::node::LutNode;
use nodes::store::Store;

// The centre of a node's table; 0 for a node that has none.
#[tactic(auto, unfolding(nodes::specs::View::lut_node, nodes::specs::View::table_in, rules::specs::Network::node_centre))]
fn centre_of(node: &LutNode, p: usize) -> u8
    requires { T (all_bits (table_in (lut_node node.now))) }
    ensures { result ≡ node_centre p (lut_node node.now) }
{
    match node {
        LutNode::Input { .. } | LutNode::Linear { .. } => 0,
        LutNode::Bootstrap { table, .. } => rotation::centre_of(table, p),
    }
}

// The node of this cell, put behind those before it; false where a field is outside its range.
#[tactic(auto, using(crate::specs::Restored::table_bits))]
fn restore_node(cell: &[u8], p: usize, store: &mut Store) -> bool
    requires cell { length cell.now ≡ 36 }
    requires room { length (store_of store.old) < 672 }
    ensures sound { result ≡ true → (length (store_of store.new) ≡ length (store_of store.old) + 1) × (Centred p store.old → Centred p store.new) }
    ensures complete { (n : Node) → GoodNode (length (store_of store.old)) n → cell.now ≡ node_cell n → (result ≡ true) × (store_of store.new ≡ store_of store.old ++ n ∷ []) }
{
    let Some(node) = read_node(cell, store.len()) else {
        return false;
    };
    let centre = centre_of(&node, p);
    store.push(node, centre);
    true
}

// The node store that these bytes hold, in the place of what the lent one held; false where a field is outside its range.
pub fn restore_nodes(bytes: &[u8], p: usize, most: usize, store: &mut Store) -> bool
    requires bytes { length bytes.now ≡ 24194 }
    requires most { most ≤ 672 }
    ensures sound { result ≡ true → (length (store_of store.new) ≤ most) × Centred p store.new }
    ensures complete { (nodes : List Node) → length nodes ≤ most → ((i : ℕ) → i < length nodes → GoodNode i (node_at nodes i)) → bytes.now ≡ two_bytes (length nodes) ++ padded 24192 (flat_map node_cell nodes) → (result ≡ true) × (store_of store.new ≡ nodes) }
{
    store.clear();
    let count = number(bytes[0], bytes[1]);
    if count > most {
        return false;
    }
    for i in 0..count {
        if !restore_node(&bytes[2 + 36 * i..38 + 36 * i], p, store) {
            return false;
        }
    }
    true
}
