// A reading that gives this sum (document 02, S-1): the first bits for the nodes that a `lin` adds which give a wanted value.
// It leans on the reader (`network`).
#![tactic(auto)]

mod search;

ghost use Rattle.std.specs.Prelude.{◌≡◌, ◌≤◌, nat_abs};
ghost use Rattle.rules.specs.Network.{Linear, node_at};
ghost use Rattle.rules.specs.SumReading.{reading_at, sum_reading, sum_reply, sum_answer};
ghost use Rattle.nodes.specs.Store.{store_of};
ghost use Rattle.nodes.specs.View.{terms_seen};
ghost use Rattle.sum_reading.specs.Nodes.{GoodTerms};
ghost use Rattle.sum_reading.specs.Reply.{FewShown};

pub use crate::search::coefs_of;
use crate::search::{first_row, shown};
use network::Network;
use nodes::node::{LutNode, Term};
use nodes::store::Store;
use rules::{Reason, Refusal, Shown};

// A sum of this constant and these terms, the parts that a match on its node lends.
fn reading_on(constant: i8, terms: &[Term], value: i32) -> Option<Shown>
    requires near { nat_abs constant ≤ 31 }
    requires good { GoodTerms terms.now }
    ensures few { FewShown (Ok result) }
    ensures is { sum_reply (Ok result) ≡ sum_answer (reading_at (Linear constant (terms_seen terms.now)) value) }
{
    let wanted = value as i64 - constant as i64;
    let row = first_row(&coefs_of(terms), wanted);
    shown(terms.len(), row)
}

// The node of a number; where it is no `lin`, 35.
#[tactic(auto, using(crate::specs::Nodes::refusing), unfolding(nodes::specs::View::lut_node))]
fn reading_at(store: &Store, node: usize, value: i32) -> Result<Option<Shown>, Refusal>
    ensures few { FewShown result }
    ensures is { sum_reply result ≡ sum_answer (reading_at (node_at (store_of store.now) node) value) }
{
    if store.len() <= node {
        return Err(Refusal::of_whole(Reason::NoSum));
    }
    match store.node(node) {
        LutNode::Linear { constant, terms } => Ok(reading_on(*constant, terms, value)),
        LutNode::Input { .. } | LutNode::Bootstrap { .. } => Err(Refusal::of_whole(Reason::NoSum)),
    }
}

// The first bits for the terms of a node, a `lin` of the network that the text describes, with which its sum is the value.
#[tactic(auto, unfolding(rules::specs::SumReading::sum_reading, rules::specs::SumReading::sum_reading_on, rules::specs::SumReading::sum_answer))]
pub fn sum_reading(text: &[u8], node: usize, value: i32) -> Result<Option<Shown>, Refusal>
    ensures few { FewShown result }
    ensures is { sum_reply result ≡ sum_answer (sum_reading text.now node value) }
{
    let mut network = Network::new();
    network::read_admitted(text, &mut network)?;
    reading_at(&network.store, node, value)
}
