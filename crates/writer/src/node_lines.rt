// The live nodes of a store, each by its new number.
ghost use Rattle.std.specs.Prelude.{◌≡◌, ◌<◌, ◌≤◌, nat_abs, map, length};
ghost use Rattle.rules.specs.Network.{Linear};
ghost use Rattle.rules.specs.Writing.{terms_text, node_text, nodes_text};
ghost use Rattle.nodes.specs.Store.{store_of};
ghost use Rattle.nodes.specs.View.{lut_node, terms_seen};
ghost use Rattle.lines.specs.Put.{Put, Room};
ghost use Rattle.writer.specs.Live.{new_number, new_term, new_node, live_nodes, TermsReady, Ready, HasNumber, Sourced, line_at};

use lines::cursor::Cursor;
use lines::line::{put_boot, put_in, put_term};
use nodes::node::{LutNode, Term};
use nodes::store::Store;

// The new number of a live node.
#[tactic(auto, unfolding(crate::specs::Live::new_number))]
pub fn number_of(live: &[Option<u16>; 672], node: usize) -> usize
    requires { (node < 672) × HasNumber live.now node }
    ensures { result ≡ new_number live.now node }
{
    live[node].unwrap() as usize
}

// The terms of a sum.
fn put_terms(cursor: &mut Cursor<'_>, terms: &[Term], live: &[Option<u16>; 672])
    requires ready { TermsReady live.now (terms_seen terms.now) }
    requires room { Room cursor.old.at (terms_text (map (new_term live.now) (terms_seen terms.now))) }
    ensures { Put (terms_text (map (new_term live.now) (terms_seen terms.now))) cursor.old cursor.new }
{
    for term in terms {
        put_term(cursor, term.coef as i64, number_of(live, term.node.get()));
    }
}

// `(lin CONST (COEF ID) ..)`
#[tactic(auto, using(lines::specs::Put::pieces), unfolding(rules::specs::Writing::node_text, crate::specs::Live::new_node))]
fn put_lin(cursor: &mut Cursor<'_>, constant: i64, terms: &[Term], live: &[Option<u16>; 672])
    requires small { nat_abs constant ≤ 31 }
    requires ready { TermsReady live.now (terms_seen terms.now) }
    requires room { Room cursor.old.at (node_text (new_node live.now (Linear constant (terms_seen terms.now)))) }
    ensures { Put (node_text (new_node live.now (Linear constant (terms_seen terms.now)))) cursor.old cursor.new }
{
    cursor.put_all(b"(lin ");
    cursor.put_signed(constant);
    put_terms(cursor, terms, live);
    cursor.put_all(b")\n");
}

// A node whose sources are live.
#[tactic(auto, unfolding(nodes::specs::View::lut_node, crate::specs::Live::new_node, rules::specs::Writing::node_text, lines::specs::Lines::in_text))]
pub fn put_node(cursor: &mut Cursor<'_>, node: &LutNode, live: &[Option<u16>; 672])
    requires ready { Ready live.now (lut_node node.now) }
    requires room { Room cursor.old.at (node_text (new_node live.now (lut_node node.now))) }
    ensures { Put (node_text (new_node live.now (lut_node node.now))) cursor.old cursor.new }
{
    match node {
        LutNode::Input { name, weight } => put_in(cursor, name, *weight as usize),
        LutNode::Linear { constant, terms } => put_lin(cursor, *constant as i64, terms, live),
        LutNode::Bootstrap { source, table } => {
            put_boot(cursor, number_of(live, source.get()), table);
        }
    }
}

// Node i, if it is live.
#[tactic(auto, using(nodes::specs::Store::store_few))]
fn put_live(cursor: &mut Cursor<'_>, store: &Store, live: &[Option<u16>; 672], i: usize)
    requires sourced { Sourced live.now store.now × (i < length (store_of store.now)) }
    requires room { Room cursor.old.at (line_at live.now (store_of store.now) i) }
    ensures { Put (line_at live.now (store_of store.now) i) cursor.old cursor.new }
{
    if live[i].is_some() {
        put_node(cursor, store.node(i), live);
    }
}

// The live ones of the nodes. By place, since `live` is by place; and by its parts, since a `Text` would ask of the outputs too.
pub fn put_nodes(cursor: &mut Cursor<'_>, store: &Store, live: &[Option<u16>; 672])
    requires sourced { Sourced live.now store.now }
    requires room { Room cursor.old.at (nodes_text (live_nodes live.now store.now)) }
    ensures { Put (nodes_text (live_nodes live.now store.now)) cursor.old cursor.new }
{
    for i in 0..store.len() {
        put_live(cursor, store, live, i);
    }
}
