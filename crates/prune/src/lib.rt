// What outputs need of the nodes: marks, and the numbers that the kept ones get. It leans on `nodes`.
#![tactic(auto)]

ghost use Rattle.std.specs.Prelude.{◌≤◌, ◌<◌, length};
ghost use Rattle.rules.specs.NetworkText.{sources};
ghost use Rattle.rules.specs.Store.{needs, wanted_below};
ghost use Rattle.nodes.specs.Store.{store_of};
ghost use Rattle.nodes.specs.View.{Fine, FineTerms, lut_node, terms_seen};
ghost use Rattle.prune.specs.Prune.{Marking, adding, Numbers};

use nodes::node::{LutNode, Term};
use nodes::store::Store;

// The nodes of these terms are marked.
#[tactic(auto, using(crate::specs::Prune::marking_terms))]
fn mark_terms(terms: &[Term], marks: &mut [bool; 672])
    requires { FineTerms 672 (terms_seen terms.now) }
    ensures { Marking (adding (sources (terms_seen terms.now))) marks.old marks.new }
{
    for term in terms {
        marks[term.node.get()] = true;
    }
}

// What a node needs is marked.
#[tactic(auto, using(crate::specs::Prune::adding_none, crate::specs::Prune::adding_one), unfolding(nodes::specs::View::lut_node, nodes::specs::View::Fine, rules::specs::Store::needs))]
fn mark_sources(node: &LutNode, marks: &mut [bool; 672])
    requires { Fine 672 (lut_node node.now) }
    ensures { Marking (adding (needs (lut_node node.now))) marks.old marks.new }
{
    match node {
        LutNode::Input { .. } => {}
        LutNode::Linear { terms, .. } => mark_terms(terms, marks),
        LutNode::Bootstrap { source, .. } => marks[source.get()] = true,
    }
}

// Every node that a marked one needs is marked. By place, since marks are by place, and backwards, since a node stands behind those that it needs.
fn mark_live(store: &Store, marks: &mut [bool; 672])
    ensures { let nodes = store_of store.now in Marking (wanted_below (length nodes) nodes) marks.old marks.new }
{
    for i in (0..store.len()).rev() {
        if marks[i] {
            mark_sources(store.node(i), marks);
        }
    }
}

// The new number of each marked node; the others have none. An array as it is: `writer::Text` holds it with what is true of it, and `number_of` there is
// all that is asked of it. The marks with a count, and no part of them: `Marks`, what is known of marks, speaks of all places.
fn renumber(marks: &[bool; 672], count: usize) -> [Option<u16>; 672]
    requires { count ≤ 672 }
    ensures { Numbers (λ kept. kept) count marks.now result }
{
    let mut numbers = [None; 672];
    let mut next = 0;
    for (i, &mark) in marks[..count].iter().enumerate() {
        if mark {
            numbers[i] = Some(next);
            next += 1;
        }
    }
    numbers
}

// From the marks of the nodes that outputs name to the new numbers of all nodes that are kept.
pub fn prune(store: &Store, marks: &mut [bool; 672]) -> [Option<u16>; 672]
    ensures { let nodes = store_of store.now in Numbers (wanted_below (length nodes) nodes) (length nodes) marks.old result }
{
    mark_live(store, marks);
    renumber(marks, store.len())
}
