// A state that stands in the buffer: the mapping is continued from it, and its network is admitted before a byte is written, since nobody can tell whether the
// state was altered.
ghost use Rattle.std.specs.Prelude.{◌≡◌, ℕ, ◌+◌, ◌≤◌, ◌<◌, eqb, map, length, drop};
ghost use Rattle.rules.specs.Refusal.{reason_number};
ghost use Rattle.theorems.specs.SoundCircuits.{Sound};
ghost use Rattle.forms.specs.Forms.{output_of};
ghost use Rattle.circuit.specs.View.{gate_of, circuit_of};
ghost use Rattle.gates.specs.Wired.{state_of};
ghost use Rattle.retuning.specs.Kept.{kept_length};
ghost use Rattle.retuning.specs.Retune as definition;
ghost use Rattle.retuning.specs.Retune.{Unaltered};
ghost use Rattle.retune.specs.Reply.{IsRead};
ghost use Rattle.restore.specs.Standing.{Reached};
ghost use Rattle.retune.specs.Rest.{rest_of};
ghost use Rattle.retune.specs.Safety.{Answered, Continued};
ghost use Rattle.retune.specs.Served.{Served, SafeOrNone};

use crate::rest::{map_rest, valid_settings};
use admission::admit;
use arrayvec::ArrayVec;
use circuit::Circuit;
use cone::Cone;
use cone::settings::ValidSettings;
use nodes::store::Store;
use restore::restore;
use rules::{Reason, Refusal, Settings};

// A network's text in the answer buffer, or 11 where that is too short; nothing where the text is not admitted.
#[tactic(auto, using(laws::specs::Tests::tests), unfolding(crate::specs::Safety::Answered, rules::specs::Converter::answer_text, laws::specs::Over::over))]
fn answer_admitted(text: &[u8], out: &mut [u8]) -> Option<Result<usize, Refusal>>
    ensures { Answered text.now out.old out.new result }
{
    if admit(text).is_err() {
        return None;
    }
    if out.len() < text.len() {
        return Some(Err(Refusal::of_whole(Reason::ShortBuffer)));
    }
    out[..text.len()].copy_from_slice(text);
    Some(Ok(text.len()))
}

// Whether a buffer was too short.
#[tactic(auto, unfolding(rules::specs::Refusal::reason_number))]
fn is_short(reason: Reason) -> bool
    ensures { result ≡ eqb (reason_number reason) 11 }
{
    matches!(reason, Reason::ShortBuffer)
}

// The gates from the place on, from a state that was read back. No network that a circuit's text gives is longer than the local text.
fn continued(
    s: ValidSettings,
    store: &mut Store,
    wires: &mut ArrayVec<Cone, 128>,
    circuit: &Circuit<'_>,
    place: usize,
    out: &mut [u8],
    begun: &mut usize,
) -> Option<Result<usize, Refusal>>
    requires sound { Sound (circuit_of s.settings circuit.now) }
    requires place { place ≤ length circuit.now.gates.items }
    requires reached { Reached s.settings.p circuit.now place store.old wires.old.items }
    requires few { begun.old ≤ 96 }
    ensures is { Continued (rest_of s.settings (map output_of circuit.now.outputs.items) (drop place (map gate_of circuit.now.gates.items)) (state_of store.old wires.old.items)) out.old out.new result }
    ensures begun { begun.new ≡ begun.old + definition.begun s.settings (map output_of circuit.now.outputs.items) (state_of store.old wires.old.items) (drop place (map gate_of circuit.now.gates.items)) }
{
    let mut text = [0; 65536];
    match map_rest(s, store, wires, circuit, place, &mut text, begun) {
        Ok(n) => answer_admitted(&text[..n], out),
        Err(refusal) if is_short(refusal.reason) => None,
        Err(refusal) => Some(Err(refusal)),
    }
}

// What the state that stands in the buffer gives, if one stands there that belongs to the circuit.
pub fn served(
    settings: Settings,
    circuit: &Circuit<'_>,
    place: usize,
    state: &[u8],
    out: &mut [u8],
    begun: &mut usize,
) -> Option<Result<usize, Refusal>>
    requires read { IsRead (circuit_of settings circuit.now) }
    requires place { place < length circuit.now.gates.items }
    requires long { kept_length ≤ length state.now }
    requires none { begun.old ≡ 0 }
    ensures served { Unaltered state.now → Served (circuit_of settings circuit.now) place state.now out.old out.new begun.new result }
    ensures safe { SafeOrNone out.old out.new result }
    ensures few { begun.new ≤ 96 }
{
    let s = valid_settings(settings);
    let mut store = Store::new();
    let mut wires = ArrayVec::new();
    if !restore(
        state,
        settings,
        circuit,
        place,
        s.settings.p,
        &mut store,
        &mut wires,
    ) {
        return None;
    }
    continued(s, &mut store, &mut wires, circuit, place, out, begun)
}
