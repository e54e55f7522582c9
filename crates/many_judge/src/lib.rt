// The first of 21 to 24, 38 and 39 that a `many` line of edition 2 meets after the lines before it (document 02, S-11).
// It leans on `network_bounds`, `network_judge`, `many_text` and `rotation`.
#![tactic(auto)]

ghost use Rattle.std.specs.Prelude.{◌≡◌, Bool, IfOk, Some};
ghost use Rattle.laws.specs.Select.{any};
ghost use Rattle.rules.specs.Edition2.{Table as Whole, other_centre};
ghost use Rattle.rules.specs.Network.{boot_sources, member};
ghost use Rattle.rules.specs.Refusal.{number_met};
ghost use Rattle.text.specs.Judged.{lowest};
ghost use Rattle.nodes.specs.Store.{store_of};
ghost use Rattle.nodes.specs.View.{lut_node};
ghost use Rattle.network_judge.specs.View.{prefix_of};
ghost use Rattle.many_text.specs.View.{table_of, tables_left};
ghost use Rattle.many_judge.specs.Sources.{takes_source};
ghost use Rattle.many_judge.specs.Conditions.{many_conditions};

use forms::Net;
use many_text::{Table, Tables};
use network_bounds::table::{is_rotatable, table_of};
use network_judge::{Network, is_fitting};
use nodes::node::LutNode;
use nodes::store::Store;
use rules::Reason;

// The node is a table on node `source`.
#[tactic(auto, unfolding(nodes::specs::View::lut_node, crate::specs::Sources::takes_source))]
fn takes(node: &LutNode, source: usize) -> bool
    ensures { result ≡ takes_source source (lut_node node.now) }
{
    match node {
        LutNode::Bootstrap { source: taken, .. } => source == taken.get(),
        LutNode::Input { .. } | LutNode::Linear { .. } => false,
    }
}

// A table stands on this node already: it has a `many` line.
fn has_tables(store: &Store, source: usize) -> bool
    ensures { result ≡ member source (boot_sources (store_of store.now)) }
{
    store.nodes.iter().any(|stored| takes(&stored.node, source))
}

// The centre is not the builder's.
#[tactic(auto, unfolding(rules::specs::Edition2::other_centre))]
fn has_other_centre(p: usize, t: Table) -> bool
    ensures { result ≡ other_centre p (table_of t.entry) }
{
    let table = table_of(t.text);
    t.centre != rotation::centre_of(&table[..t.text.bits.len()], p)
}

// One of the tables is faulty. A function, which ties std's `any` to the definition's once: with `tables.any(..)` at each of the three tests (tried)
// `search` leaves five goals of check_many, so the same tie would stand three times in its answers, and this is plainer.
fn any_table<F: Fn(Table<'_>) -> bool>(mut tables: Tables, is_faulty: F) -> bool
    requires { (t : _) → F.pre is_faulty t }
    ensures { (f : Whole → Bool) → ((t : _) (r : Bool) → F.post is_faulty t r → r ≡ f (table_of t)) → result ≡ any f (tables_left tables.entry) }
{
    tables.any(is_faulty)
}

// The tables stand on this node: the limits by which they are good.
#[tactic(auto, using(crate::specs::Conditions::tests), unfolding(crate::specs::Conditions::conditions, rules::specs::Edition2::not_fitting, rules::specs::Edition2::not_turning))]
pub fn check_many(network: &Network, source: usize, tables: Tables) -> Result<Net, Reason>
    ensures number { number_met result ≡ lowest (many_conditions (prefix_of network.now) source (tables_left tables.entry)) }
    ensures net { IfOk result (λ net. network.now.net ≡ Some net) }
{
    let store = &network.store;
    let net = network.net_with_room(tables.left)?;
    if source >= store.len() {
        return Err(Reason::BadSource);
    }
    if any_table(tables, |t| !is_fitting(store, source, net.m, t.text)) {
        return Err(Reason::BadLength);
    }
    if any_table(tables, |t| !is_rotatable(net.p, t.text)) {
        return Err(Reason::NoRotation);
    }
    if any_table(tables, |t| has_other_centre(net.p, t)) {
        return Err(Reason::OtherCentre);
    }
    if has_tables(store, source) {
        return Err(Reason::SecondLine);
    }
    Ok(net)
}
