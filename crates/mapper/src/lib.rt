// The mapper, from a circuit's text to a network's: the text read, gates and outputs in turn, the end. It leans on `circuit`, `gates`, `outputs` and `conclude`.
#![tactic(auto)]

ghost use Rattle.std.specs.Prelude.{◌≡◌, map, ◌+◌, ◌*◌, ◌≤◌, length};
ghost use Rattle.rules.specs.Mapper.{finish, answer_with, map_reply, mapper};
ghost use Rattle.rules.specs.Outcome.{outcome};
ghost use Rattle.theorems.specs.SoundCircuits.{Sound};
ghost use Rattle.forms.specs.Forms.{output_of};
ghost use Rattle.circuit.specs.View.{circuit_of};
ghost use Rattle.nodes.specs.Store.{store_of, Centred};
ghost use Rattle.gates.specs.Wired.{Wired, state_of};

use arrayvec::ArrayVec;
use circuit::{Circuit, read};
use conclude::conclude;
use cone::Cone;
use cone::settings::ValidSettings;
use gates::start::start;
use gates::{map_gates, used_settings};
use nodes::store::Store;
use outputs::map_outputs;
use rules::Refusal;

// The end of a mapping, whatever nodes and cones its gates left: the outputs, Basic's last check, the text.
pub fn finish(
    s: ValidSettings,
    store: &mut Store,
    wires: &ArrayVec<Cone, 128>,
    circuit: &Circuit<'_>,
    out: &mut [u8],
) -> Result<usize, Refusal>
    requires sound { Sound (circuit_of s.settings circuit.now) }
    requires room { length (store_of store.old) + 2 * length circuit.now.outputs.items ≤ 672 }
    requires wired { Wired store.old wires.now.items (length circuit.now.inputs.items + length circuit.now.gates.items) }
    requires centred { Centred s.settings.p store.old }
    ensures { outcome (map_reply result) out.new ≡ answer_with out.old (finish s.settings (map output_of circuit.now.outputs.items) (state_of store.old wires.now.items)) }
{
    let outputs = map_outputs(s, store, wires, circuit);
    conclude(out, s.settings, &outputs, store)
}

// Mapper::map, from text to text: a network over the front of the buffer, or a refusal that keeps it.
pub fn map(text: &[u8], out: &mut [u8]) -> Result<usize, Refusal>
    ensures { outcome (map_reply result) out.new ≡ mapper text.now out.old }
{
    // All three before the text is read: a function pays at its entry for its locals, and what is set up later is so a second time.
    let mut circuit = Circuit::new();
    let mut store = Store::new();
    let mut wires = ArrayVec::new();
    let settings = used_settings(read(text, &mut circuit)?);
    let valid = ValidSettings { settings };
    start(&circuit, &mut store, &mut wires);
    let mut begun = 0;
    map_gates(
        valid,
        &mut store,
        &mut wires,
        &circuit.gates,
        &circuit.outputs,
        &mut begun,
    )?;
    finish(valid, &mut store, &wires, &circuit, out)
}
