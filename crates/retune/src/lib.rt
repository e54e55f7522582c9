// Mapping with a state that may be kept before a chosen gate (document 02, S-14): the gates before it are mapped, or their state is read back from the buffer,
// and the chosen one and those behind it are mapped from there. It leans on the mapper's steps (`gates`, `mapper`), on `keep`, which writes the state, on
// `restore`, which reads it, and on `admission`.
#![tactic(auto)]

mod kept;
mod rest;

ghost use Rattle.std.specs.Prelude.{◌≡◌, map, ℕ, ◌≤◌, ◌<◌, eqb, length, drop, position};
ghost use Rattle.rules.specs.Mapper.{map_reply};
ghost use Rattle.rules.specs.Outcome.{outcome};
ghost use Rattle.circuit.specs.declared.Gate as G;
ghost use Rattle.circuit.specs.View.{gate_of, circuit_of};
ghost use Rattle.retuning.specs.Kept.{kept_length};
ghost use Rattle.retuning.specs.Retune.{gate_on, before, made, retuned_from, retuned_at, retuned, Unaltered, Decided};
ghost use Rattle.retuning.specs.Safe.{Safe};
ghost use Rattle.retune.specs.Reply.{retuned_seen, IsRead, UnalteredAt};

use crate::kept::served;
use crate::rest::{afresh, keeping};
use circuit::{Circuit, Gate, read};
use rules::{Refusal, Settings};

// What a call answers: as the mapper, and how many gates' mapping it began.
#[derive(Clone, Copy, PartialEq, Eq)]
pub struct Retuned {
    pub result: Result<usize, Refusal>,
    pub begun: usize,
}

// The place of the gate on a line.
fn chosen_gate(gates: &[Gate], line: usize) -> Option<usize>
    ensures { result ≡ position (λ (g : G.Gate). eqb g.line line) gates.now }
{
    gates.iter().position(|gate| gate.line == line)
}

// A chosen gate, and a buffer that is long enough: continued from its state, or else all gates are mapped and the state is kept there.
fn retune_at(
    settings: Settings,
    circuit: &Circuit<'_>,
    place: usize,
    state: &mut [u8],
    out: &mut [u8],
    begun: &mut usize,
) -> Result<usize, Refusal>
    requires read { IsRead (circuit_of settings circuit.now) }
    requires place { place < length circuit.now.gates.items }
    requires long { kept_length ≤ length state.old }
    requires none { begun.old ≡ 0 }
    ensures decided { Unaltered state.old → made (outcome (map_reply result) out.new) begun.new state.new ≡ retuned_from (circuit_of settings circuit.now) place (before (circuit_of settings circuit.now) place) out.old state.old }
    ensures safe { Safe (map_reply result) out.old out.new }
    ensures behind { drop kept_length state.new ≡ drop kept_length state.old }
{
    if let Some(result) = served(settings, circuit, place, state, out, begun) {
        return result;
    }
    keeping(settings, circuit, place, state, out, begun)
}

// A circuit that was read.
fn retune_circuit(
    settings: Settings,
    circuit: &Circuit<'_>,
    line: usize,
    state: &mut [u8],
    out: &mut [u8],
    begun: &mut usize,
) -> Result<usize, Refusal>
    requires read { IsRead (circuit_of settings circuit.now) }
    requires none { begun.old ≡ 0 }
    ensures decided { UnalteredAt (circuit_of settings circuit.now) line state.old → made (outcome (map_reply result) out.new) begun.new state.new ≡ retuned_at (circuit_of settings circuit.now) (gate_on line (map gate_of circuit.now.gates.items)) out.old state.old }
    ensures safe { Safe (map_reply result) out.old out.new }
    ensures behind { drop kept_length state.new ≡ drop kept_length state.old }
{
    let Some(place) = chosen_gate(&circuit.gates, line) else {
        return afresh(settings, circuit, out, begun);
    };
    if state.len() < 34_704 {
        return afresh(settings, circuit, out, begun);
    }
    retune_at(settings, circuit, place, state, out, begun)
}

// A circuit's text mapped, with a state kept before the gate on the chosen line: where the buffer holds the one that belongs to the text only that gate and
// those behind it are begun, else it is written there. No gate on that line, or a buffer that is too short: the buffer keeps its bytes.
pub fn retune(text: &[u8], line: usize, state: &mut [u8], out: &mut [u8]) -> Retuned
    ensures decided { Decided text.now line state.old → retuned_seen result out.new state.new ≡ retuned text.now line out.old state.old }
    ensures safe { Safe (map_reply result.result) out.old out.new }
    ensures behind { drop kept_length state.new ≡ drop kept_length state.old }
{
    let mut circuit = Circuit::new();
    let settings = match read(text, &mut circuit) {
        Ok(settings) => settings,
        Err(refusal) => {
            return Retuned {
                result: Err(refusal),
                begun: 0,
            };
        }
    };
    let mut begun = 0;
    let result = retune_circuit(settings, &circuit, line, state, out, &mut begun);
    Retuned { result, begun }
}
