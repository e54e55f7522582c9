// What the search knows beside its rows.
ghost use Rattle.std.specs.Prelude.{◌≤◌, length, take};
ghost use Rattle.cone.specs.Sources.{AllBelow};
ghost use Rattle.merged_rows.specs.EnergyRows.{Small};
ghost use Rattle.nodes.specs.Store.{store_of};

use compose::basis::Basis;
use merged_rows::energy::Moments;
use nodes::store::Store;
use rules::Settings;

// What a pair is scored by: the settings, the node store, both cones over their sources together, and the rows' moments.
// The limit of the span, the size of the moments, and that the sources are nodes of the store are in its type. The weights are found from both, once a search.
#[derive(Clone, Copy)]
pub struct Context<'a> {
    pub settings: Settings,
    pub store: &'a Store,
    pub basis: &'a Basis,
    pub moments: Moments,
    pub ghost narrow: { settings.m ≤ 32 },
    pub ghost small: { Small moments },
    pub ghost stored: { AllBelow (length (store_of store.now)) (take basis.now.n basis.now.support) },
}
