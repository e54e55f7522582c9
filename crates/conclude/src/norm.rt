// Basic's last check: the largest norm of the nodes that are kept.
ghost use Rattle.std.specs.Prelude.{◌≡◌, List, ℕ, ◌<◌, length};
ghost use Rattle.rules.specs.Network.{node_at, node_norm};
ghost use Rattle.rules.specs.Store.{kept_from};
ghost use Rattle.nodes.specs.Store.{store_of};
ghost use Rattle.writer.specs.Kept.{Closed, Numbered};
ghost use Rattle.conclude.specs.Norm.{largest_norm, larger_kept};

use nodes::store::Store;

// The larger one of the norm so far and node i's, if that is kept.
#[tactic(auto, using(nodes::specs::Store::store_few, crate::specs::Norm::larger_not, crate::specs::Norm::larger_own))]
fn larger(store: &Store, live: &[Option<u16>; 672], i: usize, norm: u64) -> u64
    requires { i < length (store_of store.now) }
    ensures { result ≡ larger_kept live.now i (node_norm (store_of store.now) (node_at (store_of store.now) i)) norm }
{
    match live[i] {
        Some(_) => store.norm(i).max(norm),
        None => norm,
    }
}

// The largest norm of the kept nodes, by their numbers in the store; the written network has the same. By place: a norm is asked of the
// store. Backwards, as `largest` folds its list.
#[tactic(auto, using(crate::specs::Norm::largest_none, crate::specs::Norm::largest_step, crate::specs::Norm::largest_all))]
pub fn largest_norm(store: &Store, live: &[Option<u16>; 672]) -> u64
    ensures { (kept : List ℕ) → Numbered kept live.now (length (store_of store.now)) → Closed kept store.now → result ≡ largest_norm (kept_from kept 0 (store_of store.now)) }
{
    let mut norm = 0;
    for i in (0..store.len()).rev() {
        norm = larger(store, live, i, norm);
    }
    norm
}
