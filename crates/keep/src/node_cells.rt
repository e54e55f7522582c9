// A cell for each node of a store.
ghost use Rattle.std.specs.Prelude.{◌<◌, ◌≤◌, nat_abs, length};
ghost use mathlib.Core.List.{flat_map};
ghost use Rattle.rules.specs.Network.{Linear, Bootstrap};
ghost use Rattle.nodes.specs.Store.{store_of};
ghost use Rattle.nodes.specs.View.{lut_node, term_of, terms_seen, Fine, FineTerms};
ghost use Rattle.lines.specs.Put.{Put, Room};
ghost use Rattle.retuning.specs.Kept.{padded, term_bytes, node_bytes, node_cell};

use cells::{pad, put_counted, put_given, put_two, signed_byte};
use lines::cursor::Cursor;
use nodes::node::{LutNode, Term};
use nodes::store::Store;

#[tactic(auto, using(lines::specs::Put::pieces), unfolding(retuning::specs::Kept::term_bytes))]
fn put_term(cursor: &mut Cursor<'_>, term: Term)
    requires small { (nat_abs term.coef ≤ 31) × (term.node < 672) }
    requires room { Room cursor.old.at (term_bytes (term_of term)) }
    ensures { Put (term_bytes (term_of term)) cursor.old cursor.new }
{
    cursor.put(signed_byte(term.coef as i64));
    put_two(cursor, term.node.get());
}

fn put_terms(cursor: &mut Cursor<'_>, terms: &[Term])
    requires fine { FineTerms 672 (terms_seen terms.now) }
    requires room { Room cursor.old.at (flat_map term_bytes (terms_seen terms.now)) }
    ensures { Put (flat_map term_bytes (terms_seen terms.now)) cursor.old cursor.new }
{
    for &term in terms {
        put_term(cursor, term);
    }
}

// A sum, with the number of its kind.
#[tactic(auto, using(lines::specs::Put::pieces), unfolding(retuning::specs::Kept::node_bytes))]
fn put_sum(cursor: &mut Cursor<'_>, constant: i64, terms: &[Term])
    requires small { nat_abs constant ≤ 31 }
    requires few { length terms.now ≤ 11 }
    requires fine { FineTerms 672 (terms_seen terms.now) }
    requires room { Room cursor.old.at (node_bytes (Linear constant (terms_seen terms.now))) }
    ensures { Put (node_bytes (Linear constant (terms_seen terms.now))) cursor.old cursor.new }
{
    cursor.put_all(&[1, signed_byte(constant), terms.len() as u8]);
    put_terms(cursor, terms);
}

// A bootstrap, with the number of its kind.
#[tactic(auto, using(lines::specs::Put::pieces), unfolding(retuning::specs::Kept::node_bytes))]
fn put_boot(cursor: &mut Cursor<'_>, source: usize, table: &[u8])
    requires small { source < 672 }
    requires few { length table.now ≤ 32 }
    requires room { Room cursor.old.at (node_bytes (Bootstrap source table.now)) }
    ensures { Put (node_bytes (Bootstrap source table.now)) cursor.old cursor.new }
{
    cursor.put(2);
    put_two(cursor, source);
    put_counted(cursor, table);
}

#[tactic(auto, using(lines::specs::Put::pieces), unfolding(nodes::specs::View::lut_node, retuning::specs::Kept::node_bytes))]
fn put_node_bytes(cursor: &mut Cursor<'_>, node: &LutNode)
    requires fine { Fine 672 (lut_node node.now) }
    requires room { Room cursor.old.at (node_bytes (lut_node node.now)) }
    ensures { Put (node_bytes (lut_node node.now)) cursor.old cursor.new }
{
    match node {
        LutNode::Input { name, weight } => {
            cursor.put(0);
            put_given(cursor, name, *weight);
        }
        LutNode::Linear { constant, terms } => put_sum(cursor, *constant as i64, terms),
        LutNode::Bootstrap { source, table } => put_boot(cursor, source.get(), table),
    }
}

fn put_node(cursor: &mut Cursor<'_>, node: &LutNode)
    requires fine { Fine 672 (lut_node node.now) }
    requires room { Room cursor.old.at (node_cell (lut_node node.now)) }
    ensures { Put (node_cell (lut_node node.now)) cursor.old cursor.new }
{
    let start = cursor.at;
    put_node_bytes(cursor, node);
    pad(cursor, start, 36);
}

pub fn put_nodes(cursor: &mut Cursor<'_>, store: &Store)
    requires { Room cursor.old.at (padded 24192 (flat_map node_cell (store_of store.now))) }
    ensures { Put (padded 24192 (flat_map node_cell (store_of store.now))) cursor.old cursor.new }
{
    let start = cursor.at;
    for i in 0..store.len() {
        put_node(cursor, store.node(i));
    }
    pad(cursor, start, 24192);
}
