// A run by rounds. At the first tick of a round all boots that were begun are finished, and all workers are free.
ghost use Rattle.std.specs.Prelude.{◌≡◌, ◌≤◌, ◌<◌, All};
ghost use Rattle.rules.specs.Workers as rules;
ghost use Rattle.theorems.specs.WorkerTrials.{WithinLimits};
ghost use Rattle.nodes.specs.Store.{store_of};
ghost use Rattle.workers.specs.Begun.{begun_in, Begins};
ghost use Rattle.workers.specs.Ready.{chosen_by};
ghost use Rattle.workers.specs.Rounds.{shown};

use crate::ready::is_ready;
use arrayvec::ArrayVec;
use nodes::store::Store;

// A run that is over: the tick at which each boot was begun, by its number, and the run's length.
#[derive(Drop)]
pub struct Run {
    pub begun: [Option<u32>; 672],
    pub ticks: usize,
}

// The boots of a round: the workers take the ready ones of lowest number.
#[tactic(auto, using(crate::specs::Boots::taking, crate::specs::Boots::listed_within), unfolding(crate::specs::Ready::chosen_by))]
fn take_ready(
    store: &Store,
    boots: &[usize],
    workers: usize,
    begun: &[Option<u32>; 672],
) -> ArrayVec<usize, 32>
    requires workers { workers ≤ 32 }
    requires boots { boots.now ≡ rules.boots (store_of store.now) }
    ensures { result.items ≡ chosen_by (store_of store.now) (begun_in begun.now) workers }
{
    let mut taken = ArrayVec::new();
    for &boot in boots {
        if taken.len() < workers && is_ready(store, boot, begun) {
            taken.push(boot);
        }
    }
    taken
}

// These boots are begun at a tick.
#[tactic(auto, using(crate::specs::Begun::beginning))]
fn begin(taken: &[usize], tick: u32, begun: &mut [Option<u32>; 672])
    requires { All (λ b. b < 672) taken.now }
    ensures { Begins tick taken.now begun.old begun.new }
{
    for &boot in taken {
        begun[boot] = Some(tick);
    }
}

// The rounds up to the first that takes none. Each takes one boot at least, so there are no more rounds than boots.
#[tactic(auto, using(crate::specs::Rounds::going))]
pub fn run_rounds(store: &Store, boots: &[usize], workers: usize, ticks: usize) -> Run
    requires limits { WithinLimits workers ticks }
    requires boots { boots.now ≡ rules.boots (store_of store.now) }
    ensures { shown result.begun boots.now result.ticks ≡ rules.simulated (store_of store.now) workers ticks }
{
    let mut begun = [None; 672];
    for round in 0..boots.len() {
        let tick = round * ticks;
        let taken = take_ready(store, boots, workers, &begun);
        if taken.is_empty() {
            return Run { begun, ticks: tick };
        }
        begin(&taken, tick as u32, &mut begun);
    }
    Run {
        begun,
        ticks: boots.len() * ticks,
    }
}
