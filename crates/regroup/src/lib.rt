// All tables of one node together: the new order of a network's nodes, and their new numbers. It leans on `nodes`.
#![tactic(auto)]

ghost use Rattle.std.specs.Prelude.{◌≡◌, ◌<◌, ◌≤◌, length};
ghost use Rattle.rules.specs.Regroup as rules;
ghost use Rattle.nodes.specs.Store.{store_of};
ghost use Rattle.nodes.specs.View.{lut_node};
ghost use Rattle.regroup.specs.Behind.{Behind};
ghost use Rattle.regroup.specs.Order.{shares, Below};
ghost use Rattle.regroup.specs.Numbers.{Numbers};

use arrayvec::ArrayVec;
use nodes::node::LutNode;
use nodes::store::Store;

// Whether both are tables of one node.
#[tactic(auto, unfolding(nodes::specs::View::lut_node, rules::specs::Regroup::same_group))]
fn same_group(x: &LutNode, y: &LutNode) -> bool
    ensures { result ≡ rules.same_group (lut_node x.now) (lut_node y.now) }
{
    match (x, y) {
        (LutNode::Bootstrap { source, .. }, LutNode::Bootstrap { source: other, .. }) => {
            source == other
        }
        _ => false,
    }
}

// Where node k stands among those in order: behind the last table of its node, or at the end.
fn place(store: &Store, order: &[u16], k: usize) -> usize
    requires { (k < length (store_of store.now)) × Below (length (store_of store.now)) order.now }
    ensures { Behind (shares (store_of store.now) k) order.now result }
{
    let node = store.node(k);
    // An input or a sum shares no node: without this test each would look at all before it.
    let LutNode::Bootstrap { .. } = node else {
        return order.len();
    };
    let last = order
        .iter()
        .rposition(|&i| same_group(node, store.node(i as usize)));
    match last {
        Some(i) => i + 1,
        None => order.len(),
    }
}

// The nodes' numbers in their new order: each in turn is put in its place. By place, since the order is one of places.
#[tactic(auto, using(crate::specs::Order::arranging, nodes::specs::Store::store_few))]
pub fn arrange(store: &Store) -> ArrayVec<u16, 672>
    ensures { result.items ≡ rules.order (store_of store.now) }
{
    let mut order = ArrayVec::new();
    for k in 0..store.len() {
        let at = place(store, &order, k);
        order.insert(at, k as u16);
    }
    order
}

// The place of each number; the others have none. The last ones first: of two that are equal the first one's place stays.
pub fn number(order: &[u16]) -> [Option<u16>; 672]
    requires { (length order.now ≤ 672) × Below 672 order.now }
    ensures { Numbers order.now result }
{
    let mut live = [None; 672];
    for (i, &k) in order.iter().enumerate().rev() {
        live[k as usize] = Some(i as u16);
    }
    live
}
