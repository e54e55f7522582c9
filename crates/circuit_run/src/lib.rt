// A run of the circuit that a text describes, on a bit for each input. It leans on the reader (`circuit`) and `bits`.
#![tactic(auto)]

mod run;

ghost use Rattle.std.specs.Prelude.{◌≡◌};
ghost use Rattle.rules.specs.Runs.{run_reply, ran, run_circuit};

use crate::run::run_read;
use circuit::Circuit;
use rules::RunError;

// The circuit that a text describes, run on a bit for each input.
#[tactic(auto, unfolding(rules::specs::Runs::run_circuit, rules::specs::Runs::run_circuit_on))]
pub fn run_circuit(text: &[u8], bits: &[u8], values: &mut [u8]) -> Result<usize, RunError>
    ensures { ran (run_reply result) values.new ≡ run_circuit text.now bits.now values.old }
{
    let mut circuit = Circuit::new();
    circuit::read(text, &mut circuit).map_err(RunError::Unreadable)?;
    run_read(&circuit, bits, values)
}
