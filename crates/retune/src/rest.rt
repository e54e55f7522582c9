// The gates from a place on, from whatever state stands before them: that of the first ones, which may be kept, or one that was read back.
ghost use Rattle.std.specs.Prelude.{◌≡◌, true, map, ℕ, ◌+◌, ◌≤◌, ◌<◌, length, drop};
ghost use Rattle.rules.specs.CircuitText.{in_limits};
ghost use Rattle.rules.specs.Mapper.{used_settings, map_circuit, map_reply, answer_with};
ghost use Rattle.rules.specs.Outcome.{outcome};
ghost use Rattle.theorems.specs.SoundCircuits.{Sound};
ghost use Rattle.forms.specs.Forms.{output_of};
ghost use Rattle.circuit.specs.View.{gate_of, circuit_of};
ghost use Rattle.gates.specs.Wired.{state_of};
ghost use Rattle.retuning.specs.Kept.{kept_length};
ghost use Rattle.retuning.specs.Retune as definition;
ghost use Rattle.retuning.specs.Retune.{before};
ghost use Rattle.retune.specs.Reply.{IsRead};
ghost use Rattle.restore.specs.Standing.{Reached};
ghost use Rattle.retune.specs.Rest.{rest_of};
ghost use Rattle.retune.specs.Served.{begun_all, kept_over};

use arrayvec::ArrayVec;
use circuit::Circuit;
use cone::Cone;
use cone::settings::ValidSettings;
use gates::start::start;
use gates::{map_gates, used_settings};
use keep::keep;
use mapper::finish;
use nodes::store::Store;
use rules::{Refusal, Settings};

// The settings as they are used, of an `fbs` line that was judged.
pub fn valid_settings(settings: Settings) -> ValidSettings
    requires { in_limits settings ≡ true }
    ensures { result.settings ≡ used_settings settings }
{
    ValidSettings {
        settings: used_settings(settings),
    }
}

// The gates from the place on, and the end. `begun` counts those whose mapping begins.
pub fn map_rest(
    s: ValidSettings,
    store: &mut Store,
    wires: &mut ArrayVec<Cone, 128>,
    circuit: &Circuit<'_>,
    place: usize,
    out: &mut [u8],
    begun: &mut usize,
) -> Result<usize, Refusal>
    requires sound { Sound (circuit_of s.settings circuit.now) }
    requires place { place ≤ length circuit.now.gates.items }
    requires reached { Reached s.settings.p circuit.now place store.old wires.old.items }
    requires few { begun.old ≤ 192 }
    ensures is { outcome (map_reply result) out.new ≡ answer_with out.old (rest_of s.settings (map output_of circuit.now.outputs.items) (drop place (map gate_of circuit.now.gates.items)) (state_of store.old wires.old.items)) }
    ensures begun { begun.new ≡ begun.old + definition.begun s.settings (map output_of circuit.now.outputs.items) (state_of store.old wires.old.items) (drop place (map gate_of circuit.now.gates.items)) }
{
    let gates = &circuit.gates[place..];
    map_gates(s, store, wires, gates, &circuit.outputs, begun)?;
    finish(s, store, wires, circuit, out)
}

// The whole circuit, from its first gate on; no state is kept.
pub fn afresh(
    settings: Settings,
    circuit: &Circuit<'_>,
    out: &mut [u8],
    begun: &mut usize,
) -> Result<usize, Refusal>
    requires read { IsRead (circuit_of settings circuit.now) }
    requires few { begun.old ≤ 96 }
    ensures is { outcome (map_reply result) out.new ≡ answer_with out.old (map_circuit (circuit_of settings circuit.now)) }
    ensures begun { begun.new ≡ begun.old + begun_all (circuit_of settings circuit.now) }
{
    let s = valid_settings(settings);
    let mut store = Store::new();
    let mut wires = ArrayVec::new();
    start(circuit, &mut store, &mut wires);
    map_rest(s, &mut store, &mut wires, circuit, 0, out, begun)
}

// The whole circuit; the state before the place is kept as soon as the gates before it are mapped.
pub fn keeping(
    settings: Settings,
    circuit: &Circuit<'_>,
    place: usize,
    state: &mut [u8],
    out: &mut [u8],
    begun: &mut usize,
) -> Result<usize, Refusal>
    requires read { IsRead (circuit_of settings circuit.now) }
    requires place { place < length circuit.now.gates.items }
    requires long { kept_length ≤ length state.old }
    requires few { begun.old ≤ 96 }
    ensures is { outcome (map_reply result) out.new ≡ answer_with out.old (map_circuit (circuit_of settings circuit.now)) }
    ensures begun { begun.new ≡ begun.old + begun_all (circuit_of settings circuit.now) }
    ensures kept { state.new ≡ kept_over (circuit_of settings circuit.now) place (before (circuit_of settings circuit.now) place) state.old }
{
    let s = valid_settings(settings);
    let mut store = Store::new();
    let mut wires = ArrayVec::new();
    start(circuit, &mut store, &mut wires);
    let first = &circuit.gates[..place];
    map_gates(s, &mut store, &mut wires, first, &circuit.outputs, begun)?;
    keep(
        settings,
        &circuit.inputs,
        first,
        &circuit.outputs,
        &store,
        &wires,
        state,
    );
    map_rest(s, &mut store, &mut wires, circuit, place, out, begun)
}
