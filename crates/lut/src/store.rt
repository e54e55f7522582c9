// A node among those of the store: equal nodes are shared.
ghost use Rattle.std.specs.Prelude.{◌≡◌, ◌<◌, length};
ghost use Rattle.nodes.specs.Store.{store_of};
ghost use Rattle.nodes.specs.View.{lut_node, Fine};
ghost use Rattle.lut.specs.Store.{found_in, Interns};

use nodes::node::LutNode;
use nodes::store::Store;
use rules::Wire;

// The number of an equal node. By place: the store's contracts speak of node i.
fn find(store: &Store, node: &LutNode) -> Option<usize>
    ensures { result ≡ found_in (store_of store.now) (lut_node node.now) }
{
    (0..store.len()).find(|&i| node == store.node(i))
}

// LutCircuit::intern: an equal node's wire, or that of the node put at the end.
pub fn intern(store: &mut Store, node: LutNode, centre: u8) -> Wire
    requires { (length (store_of store.old) < 672) × Fine (length (store_of store.old)) (lut_node node) }
    ensures { Interns centre (lut_node node) store.old store.new result }
{
    match find(store, &node) {
        Some(at) => Wire::Node(at),
        None => {
            store.push(node, centre);
            Wire::Node(store.len() - 1)
        }
    }
}
