// Trying worker counts (document 02, S-13): a run of a network's boots with so many workers, each boot lasting so many ticks. As all last equally long, they
// begin at multiples of that: the run goes by rounds. It leans on the reader (`network`).
#![tactic(auto)]

mod ready;
mod rounds;

ghost use Rattle.std.specs.Prelude.{◌≡◌, ◌≤◌, ◌<◌, map, length, All};
ghost use Rattle.laws.specs.Over.{over};
ghost use Rattle.rules.specs.Form.{Good};
ghost use Rattle.rules.specs.Workers.{simulated, trial_limits, with_run, tried, trial, trial_answer, trial_reply};
ghost use Rattle.theorems.specs.WorkerTrials.{WithinLimits};
ghost use Rattle.nodes.specs.Store.{store_of};
ghost use Rattle.workers.specs.Begun.{tick_in};

use crate::ready::boots_of;
use crate::rounds::run_rounds;
use network::Network;
use nodes::store::Store;
use rules::{Reason, Refusal, WorkerRun};

// 1 to 32 workers, 1 to 1,000 ticks.
#[tactic(auto, using(laws::specs::Tests::tests), unfolding(rules::specs::Workers::trial_limits))]
fn are_within_limits(workers: usize, ticks: usize) -> bool
    ensures { result ≡ trial_limits workers ticks }
{
    (1..=32).contains(&workers) && (1..=1000).contains(&ticks)
}

// The ticks at which these boots were begun, in their order; later places are kept. At the end of a run all were begun; 0, as the definition has it, for one
// that was not.
#[tactic(auto, using(laws::specs::Front::filling_start, crate::specs::Begun::showing))]
fn put_starts(boots: &[usize], begun: &[Option<u32>; 672], starts: &mut [u32; 671])
    requires few { length boots.now ≤ 671 }
    requires nodes { All (λ b. b < 672) boots.now }
    ensures { starts.new ≡ over (map (tick_in begun.now) boots.now) starts.old }
{
    // An index: of a zip over `iter_mut` the proof learns nothing of what was written (docs/proof-notes.md).
    for (k, &boot) in boots.iter().enumerate() {
        starts[k] = begun[boot].unwrap_or(0);
    }
}

// The run of a network's boots.
#[tactic(auto, using(crate::specs::Boots::fitting), unfolding(rules::specs::Workers::trial_answer))]
fn simulate(store: &Store, workers: usize, ticks: usize, starts: &mut [u32; 671]) -> WorkerRun
    requires { WithinLimits workers ticks }
    ensures { tried (with_run result.count result.ticks) starts.new ≡ trial_answer (Good (simulated (store_of store.now) workers ticks)) starts.old }
{
    let boots = boots_of(store);
    let run = run_rounds(store, &boots, workers, ticks);
    put_starts(&boots, &run.begun, starts);
    WorkerRun {
        count: boots.len(),
        ticks: run.ticks,
    }
}

// A run of the network that the text describes: the start tick of each boot, in the order of their numbers, later places kept, and how many boots there are and
// how long the run is. A refusal keeps all places.
#[tactic(auto, using(theorems::specs::WorkerTrials::limits_met), unfolding(rules::specs::Workers::trial, rules::specs::Workers::trial_on, rules::specs::Workers::trial_answer))]
pub fn trial(
    text: &[u8],
    workers: usize,
    ticks: usize,
    starts: &mut [u32; 671],
) -> Result<WorkerRun, Refusal>
    ensures { tried (trial_reply result) starts.new ≡ trial_answer (trial text.now workers ticks) starts.old }
{
    let mut network = Network::new();
    network::read_admitted(text, &mut network)?;
    if !are_within_limits(workers, ticks) {
        return Err(Refusal::of_whole(Reason::BadTrial));
    }
    Ok(simulate(&network.store, workers, ticks, starts))
}
