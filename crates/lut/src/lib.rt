// What the mapper asks of the node store (src/lut.rs): equal nodes shared, sums with their terms in order, what is bootstrapped already.
// It leans on `nodes` and `rotation`.
#![tactic(auto)]

pub mod forms;
mod order;
pub mod reuse;
pub mod store;

ghost use Rattle.std.specs.Prelude.{◌≤◌, ◌<◌, length};
ghost use Rattle.rules.specs.Network.{Linear, Bootstrap};
ghost use Rattle.rules.specs.Builder.{last_tried};
ghost use Rattle.rules.specs.Rotation.{centre_of};
ghost use Rattle.rules.specs.Store.{linear_terms};
ghost use Rattle.rotation.specs.Entries.{numbers};
ghost use Rattle.nodes.specs.Store.{store_of};
ghost use Rattle.nodes.specs.Terms.{terms_in, GoodTerms};
ghost use Rattle.lut.specs.Store.{Interns};

use nodes::node::LutNode;
use nodes::store::Store;
use nodes::terms::Terms;
use rotation::{centre_of, complete};
use rules::{Entry, Wire};

// LutCircuit::linear. `many` is the setting of that name, as the definition takes it.
#[tactic(auto, using(crate::specs::Store::arranged))]
pub fn linear(store: &mut Store, many: bool, t: Terms) -> Wire
    requires { (length (store_of store.old) < 672) × GoodTerms (length (store_of store.old)) t }
    ensures { Interns 0 (Linear t.constant (linear_terms many (terms_in t))) store.old store.new result }
{
    let node = LutNode::of_terms(order::linear_terms(many, t));
    // centre 0: a sum has no table
    store::intern(store, node, 0)
}

// LutCircuit::bootstrap of a table with unknown entries, as the builder fills them. Where no completion fits, the last one tried stands, as in the definition.
#[tactic(auto, using(crate::specs::Store::tried))]
pub fn bootstrap(store: &mut Store, source: usize, known: &[Entry], p: usize) -> Wire
    requires store { (length (store_of store.old) < 672) × (source < length (store_of store.old)) }
    requires known_len_bound { length known.now ≤ 32 }
    ensures { Interns (centre_of p (last_tried p (numbers known.now))) (Bootstrap source (last_tried p (numbers known.now))) store.old store.new result }
{
    let mut table = [0u8; 32];
    let table = &mut table[..known.len()];
    complete(known, p, table);
    let centre = centre_of(table, p);
    store::intern(store, LutNode::of_table(source, table), centre)
}
