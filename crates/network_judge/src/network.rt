// A network as its lines fill it.
ghost use Rattle.network_judge.specs.Holds.{Holds, Holds_prop};

use arrayvec::ArrayVec;
use forms::{Net, Output};
use nodes::store::Store;
use rules::Reason;

// What the lines so far say: the `net` line, once it came, the nodes, how many of them are inputs, and the outputs, whose names are parts
// of the text.
#[derive(Drop)]
pub struct Network<'a> {
    pub net: Option<Net>,
    pub store: Store,
    pub inputs: usize,
    pub outputs: ArrayVec<Output<'a>, 32>,
    ghost holds: { Holds net store inputs outputs.items } by { Holds_prop net store inputs outputs.items },
}

impl Network<'_> {
    ghost use Rattle.std.specs.Prelude.{◌≡◌, ◌+◌, ltb, IfOk, Some, length};
    ghost use Rattle.rules.specs.Refusal.{number_met};
    ghost use Rattle.text.specs.Judged.{lowest};
    ghost use Rattle.nodes.specs.Store.{store_of};
    ghost use Rattle.network_judge.specs.View.{prefix_of, Empty};
    ghost use Rattle.network_judge.specs.Conditions.{room_conditions};

    // Before the first line.
    #[tactic(auto, using(crate::specs::Holds::holds_nothing))]
    pub fn new() -> Self
        ensures { Empty result }
    {
        Network {
            net: None,
            store: Store::new(),
            inputs: 0,
            outputs: ArrayVec::new(),
        }
    }

    // As before the first line, whatever stood here.
    #[tactic(auto, using(crate::specs::Holds::holds_nothing))]
    pub fn clear(&mut self)
        ensures { Empty self.new }
    {
        self.net = None;
        self.store.clear();
        self.inputs = 0;
        self.outputs.clear();
    }

    // The limits of the `net` line, where n nodes more may stand.
    #[tactic(auto, using(crate::specs::Conditions::tests), unfolding(crate::specs::Conditions::conditions))]
    pub fn net_with_room(&self, n: usize) -> Result<Net, Reason>
        ensures number { number_met result ≡ lowest (room_conditions (prefix_of self.now) (ltb 672 (length (store_of self.now.store) + n))) }
        ensures net { IfOk result (λ net. self.now.net ≡ Some net) }
    {
        match self.net {
            Some(net) if self.outputs.is_empty() && n <= 672 - self.store.len() => Ok(net),
            _ => Err(Reason::BadLine),
        }
    }
}
