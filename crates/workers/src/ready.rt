// The boots of a network, and which of them may begin at a round's first tick. `begun` has the tick at which each was begun, by its number: all these are
// finished then.
ghost use Rattle.std.specs.Prelude.{◌≡◌, ◌<◌, length};
ghost use Rattle.rules.specs.Workers.{boots};
ghost use Rattle.nodes.specs.Store.{store_of};
ghost use Rattle.nodes.specs.View.{FineTerms, terms_seen};
ghost use Rattle.workers.specs.Begun.{begun_in};
ghost use Rattle.workers.specs.Ready.{is_done, all_done, known_by, ready_by};

use arrayvec::ArrayVec;
use nodes::node::{LutNode, Term};
use nodes::store::Store;

// The numbers of the boots, in order.
#[tactic(auto, using(crate::specs::Boots::listing), unfolding(nodes::specs::View::lut_node))]
pub fn boots_of(store: &Store) -> ArrayVec<usize, 672>
    ensures { result.items ≡ boots (store_of store.now) }
{
    let mut boots = ArrayVec::new();
    for i in 0..store.len() {
        if let LutNode::Bootstrap { .. } = store.node(i) {
            boots.push(i);
        }
    }
    boots
}

// Nobody waits for node i: it is no boot, or is finished.
#[tactic(auto, using(nodes::specs::Seen::reads, crate::specs::Ready::kinds), unfolding(nodes::specs::View::lut_node))]
fn is_done(store: &Store, i: usize, begun: &[Option<u32>; 672]) -> bool
    requires { i < length (store_of store.now) }
    ensures { result ≡ is_done (store_of store.now) (begun_in begun.now) i }
{
    match store.node(i) {
        LutNode::Bootstrap { .. } => begun[i].is_some(),
        LutNode::Input { .. } | LutNode::Linear { .. } => true,
    }
}

// Nor for any of these terms' nodes.
fn are_done(store: &Store, terms: &[Term], begun: &[Option<u32>; 672]) -> bool
    requires { FineTerms (length (store_of store.now)) (terms_seen terms.now) }
    ensures { result ≡ all_done (store_of store.now) (begun_in begun.now) (terms_seen terms.now) }
{
    terms
        .iter()
        .all(|term| is_done(store, term.node.get(), begun))
}

// The value of node i is known: the boots are finished that it is or needs.
#[tactic(auto, using(crate::specs::Ready::kinds), unfolding(nodes::specs::View::lut_node))]
fn is_known(store: &Store, i: usize, begun: &[Option<u32>; 672]) -> bool
    requires { i < length (store_of store.now) }
    ensures { result ≡ known_by (store_of store.now) (begun_in begun.now) i }
{
    match store.node(i) {
        LutNode::Linear { terms, .. } => are_done(store, terms, begun),
        LutNode::Input { .. } | LutNode::Bootstrap { .. } => is_done(store, i, begun),
    }
}

// A boot is ready that was not begun, when the value of its node is known. Any other node waits for nothing, as the definition has it.
#[tactic(auto, using(nodes::specs::Seen::reads, crate::specs::Ready::kinds), unfolding(nodes::specs::View::lut_node))]
pub fn is_ready(store: &Store, boot: usize, begun: &[Option<u32>; 672]) -> bool
    requires { boot < length (store_of store.now) }
    ensures { result ≡ ready_by (store_of store.now) (begun_in begun.now) boot }
{
    begun[boot].is_none()
        && match store.node(boot) {
            LutNode::Bootstrap { source, .. } => is_known(store, source.get(), begun),
            LutNode::Input { .. } | LutNode::Linear { .. } => true,
        }
}
