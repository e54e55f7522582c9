// The statistics, counted over the node store.
ghost use Rattle.std.specs.Prelude.{◌≡◌, ℕ, ◌<◌, length};
ghost use Rattle.rules.specs.Network.{node_at, node_norm, depth};
ghost use Rattle.nodes.specs.Store.{store_of, centre_in, Centred};
ghost use Rattle.admission.specs.Count.{stats_of, measured, node_stats, taken_with, Room};

use nodes::node::LutNode;
use nodes::store::Store;
use rules::Stats;

// The statistics of the nodes so far, and which of the 672 a boot among them takes.
#[derive(Drop)]
struct Counting {
    stats: Stats,
    taken: [bool; 672],
}

impl Counting {
    ghost use Rattle.std.specs.Prelude.{◌≡◌, ◌<◌, length};
    ghost use Rattle.rules.specs.Network.{node_at, node_norm, depth};
    ghost use Rattle.nodes.specs.Store.{store_of, centre_in};
    ghost use Rattle.admission.specs.Count.{measured, node_stats, taken_with, Room};

    // Node i counted.
    #[tactic(auto, using(crate::specs::Count::source_inside), unfolding(crate::specs::Count::node_stats, crate::specs::Count::taken_with, nodes::specs::View::lut_node))]
    fn count_node(&mut self, store: &Store, i: usize)
        requires inside { i < length (store_of store.now) }
        requires room { Room self.old.stats }
        ensures stats { self.new.stats ≡ node_stats (measured self.old.stats (node_norm (store_of store.now) (node_at (store_of store.now) i)) (depth (store_of store.now) i)) (centre_in store.now i) self.old.taken (node_at (store_of store.now) i) }
        ensures taken { self.new.taken ≡ taken_with self.old.taken (node_at (store_of store.now) i) }
    {
        let s = &mut self.stats;
        s.norm = s.norm.max(store.norm(i) as usize);
        s.depth = s.depth.max(store.depth(i));
        match store.node(i) {
            LutNode::Input { .. } => s.inputs += 1,
            LutNode::Linear { .. } => s.sums += 1,
            LutNode::Bootstrap { source, table } => {
                let taken = &mut self.taken[source.get()];
                s.boots += 1;
                s.sources += !*taken as usize;
                s.longest = s.longest.max(table.len());
                *taken = true;
                match store.centre(i) {
                    0 => s.centre0 += 1,
                    1 => s.centre1 += 1,
                    2 => s.centre2 += 1,
                    _ => {}
                }
            }
        }
    }
}

// The statistics of a network with these nodes and so many outputs. By place: norm and depth are asked of the store.
#[tactic(auto, using(crate::specs::Count::turns))]
pub fn stats_of(store: &Store, outputs: usize) -> Stats
    ensures { (p : ℕ) → Centred p store.now → result ≡ stats_of p (store_of store.now) outputs }
{
    let mut counting = Counting {
        stats: Stats {
            outputs,
            ..Stats::default()
        },
        taken: [false; 672],
    };
    for i in 0..store.len() {
        counting.count_node(store, i);
    }
    counting.stats
}
