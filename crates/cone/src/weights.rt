// The weights of sources, read from the node store.
ghost use Rattle.std.specs.Prelude.{◌≡◌, ◌≤◌, length, take};
ghost use Rattle.theorems.specs.Weights.{weights_of};
ghost use Rattle.nodes.specs.Store.{store_of};
ghost use Rattle.cone.specs.Sources.{AllBelow};

use nodes::store::Store;

// A weight for each source; what stands behind them does not matter. An array, as the cone's sources are one.
pub fn weights_of(store: &Store, sources: &[usize]) -> [u8; 11]
    requires { (length sources.now ≤ 11) × AllBelow (length (store_of store.now)) sources.now }
    ensures { take (length sources.now) result ≡ weights_of (store_of store.now) sources.now }
{
    let mut weights = [0u8; 11];
    // An index: of a zip over `iter_mut` the proof learns nothing of what was written (docs/proof-notes.md); `from_fn` would ask at each of
    // the 11 places whether a source stands there.
    for (k, &source) in sources.iter().enumerate() {
        weights[k] = store.weight(source);
    }
    weights
}
