// The bootstrapped sums over the same sources as a cone.
ghost use Rattle.std.specs.Prelude.{◌≡◌, ◌≤◌, ◌<◌, length};
ghost use Rattle.rules.specs.Network.{node_at};
ghost use Rattle.rules.specs.Store.{terms_of};
ghost use Rattle.nodes.specs.Store.{store_of};
ghost use Rattle.nodes.specs.View.{lut_node, terms_seen};
ghost use Rattle.lut.specs.Forms.{coefficient_in, AlignedTo, FormOf, form_terms};

use nodes::node::{LutNode, Term};
use nodes::store::Store;

// A node's terms; none where it is no sum.
#[tactic(auto, unfolding(nodes::specs::View::lut_node, nodes::specs::View::terms_seen, rules::specs::Store::terms_of))]
fn terms_of(node: &LutNode) -> &[Term]
    ensures { terms_seen result.now ≡ terms_of (lut_node node.now) }
{
    match node {
        LutNode::Linear { terms, .. } => terms,
        _ => &[],
    }
}

// The coefficient of a source, if it is among the terms.
fn coefficient(terms: &[Term], source: usize) -> Option<i64>
    ensures { result ≡ coefficient_in terms.now source }
{
    let term = terms.iter().find(|t| t.node.get() == source);
    term.map(|t| t.coef as i64)
}

// The terms as a form over a support; none where there are other sources.
#[tactic(auto, using(crate::specs::Forms::align_steps))]
fn align(terms: &[Term], support: &[usize]) -> Option<[i64; 11]>
    requires { length support.now ≤ 11 }
    ensures { AlignedTo support.now (terms_seen terms.now) result }
{
    if terms.len() != support.len() {
        return None;
    }
    let mut coefs = [0i64; 11];
    // An index: of a zip over `iter_mut` the proof learns nothing of what was written (docs/proof-notes.md).
    for (k, &source) in support.iter().enumerate() {
        coefs[k] = coefficient(terms, source)?;
    }
    Some(coefs)
}

// What bootstrap i takes, as a form over a support; none where node i is no bootstrap.
#[tactic(auto, using(crate::specs::Reuse::boot_below), unfolding(crate::specs::Forms::form_terms, crate::specs::Forms::FormOf, nodes::specs::View::lut_node))]
pub fn form_at(store: &Store, i: usize, support: &[usize]) -> Option<[i64; 11]>
    requires { (i < length (store_of store.now)) × (length support.now ≤ 11) }
    ensures { FormOf support.now (form_terms (store_of store.now) (node_at (store_of store.now) i)) result }
{
    match store.node(i) {
        LutNode::Bootstrap { source, .. } => { align(terms_of(store.node(source.get())), support) }
        _ => None,
    }
}
