// All nodes run, in order.
ghost use Rattle.std.specs.Prelude.{◌≡◌, true, [], ℕ};
ghost use Rattle.laws.specs.Select.{all};
ghost use Rattle.rules.specs.Network.{node_values};
ghost use Rattle.nodes.specs.Store.{store_of};
ghost use Rattle.network_run.specs.Value.{turns};
ghost use Rattle.network_run.specs.Nodes.{Flat, values_of};

use crate::value::node_value;
use arrayvec::ArrayVec;
use nodes::store::Store;

// A rotation of period p gives every table; of a node that has none the store lends no bits, which each gives. Where it does not, a run
// breaks off for all bits.
// By number, since the store lends a table by its node's number.
pub fn are_rotatable(store: &Store, p: usize) -> bool
    ensures { result ≡ all (turns p) (store_of store.now) }
{
    (0..store.len()).all(|i| rotation::is_fbs_table_valid(store.table_of(i), p))
}

// The values of the nodes of a network whose tables a rotation gives; none where a boot breaks off. No table is judged here.
// Public from before: a caller may judge once and run often. By number, since the store says by number what its nodes are (`node`, `node_fine`): over
// `store.nodes.iter()` (tried) the turn is no shorter, and its answers have to turn each item back into node i first.
#[tactic(auto, using(crate::specs::Nodes::running))]
pub fn run_rotatable(store: &Store, bits: &[u8]) -> Option<ArrayVec<i64, 672>>
    requires { Flat (store_of store.now) }
    ensures { (p : ℕ) → all (turns p) (store_of store.now) ≡ true → values_of result ≡ node_values p bits.now [] (store_of store.now) }
{
    let mut values = ArrayVec::new();
    for i in 0..store.len() {
        values.push(node_value(store.node(i), bits, &values)?);
    }
    Some(values)
}

// The values of the nodes; none where a boot breaks off.
#[tactic(auto, using(crate::specs::Nodes::unturned))]
pub fn run_nodes(store: &Store, p: usize, bits: &[u8]) -> Option<ArrayVec<i64, 672>>
    requires { Flat (store_of store.now) }
    ensures { values_of result ≡ node_values p bits.now [] (store_of store.now) }
{
    if !are_rotatable(store, p) {
        return None;
    }
    run_rotatable(store, bits)
}
