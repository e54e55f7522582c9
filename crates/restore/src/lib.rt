// The state before a chosen gate, read back from a buffer that holds it. It leans on `header`, `restore_nodes` and `restore_cones`.
#![tactic(auto)]

ghost use Rattle.std.specs.Prelude.{◌≡◌, true, ◌<◌, ◌≤◌, length};
ghost use Rattle.rules.specs.Mapper.{State};
ghost use Rattle.theorems.specs.SoundCircuits.{Sound};
ghost use Rattle.retuning.specs.GoodState.{GoodState};
ghost use Rattle.retuning.specs.Kept.{state_bytes, kept_length};
ghost use Rattle.retuning.specs.Retune.{Unaltered};
ghost use Rattle.circuit.specs.View.{circuit_of};
ghost use Rattle.nodes.specs.Store.{store_of, Centred};
ghost use Rattle.gates.specs.Wired.{Wired, state_of};
ghost use Rattle.restore.specs.Standing.{StandsIn, Reached};

use arrayvec::ArrayVec;
use circuit::Circuit;
use cone::Cone;
use header::is_header;
use nodes::store::Store;
use restore_cones::restore_cones;
use restore_nodes::restore_nodes;
use rules::Settings;

// The nodes and cones that these bytes hold, so many cones and at most so many nodes.
fn restore_state(
    bytes: &[u8],
    p: usize,
    count: usize,
    most: usize,
    store: &mut Store,
    wires: &mut ArrayVec<Cone, 128>,
) -> bool
    requires long { length bytes.now ≡ 32642 }
    requires few { (count ≤ 128) × (most ≤ 672) }
    ensures sound { result ≡ true → Wired store.new wires.new.items count × (length (store_of store.new) ≤ most) × Centred p store.new }
    ensures complete { (st : State) → GoodState count most st → bytes.now ≡ state_bytes st → (result ≡ true) × (state_of store.new wires.new.items ≡ st) }
{
    restore_nodes(&bytes[..24194], p, most, store)
        && restore_cones(&bytes[24194..], count, store.len(), wires)
}

// The state before the gate at that place, read back from a buffer that holds it; false where it holds none that belongs to the circuit.
pub fn restore(
    state: &[u8],
    settings: Settings,
    circuit: &Circuit<'_>,
    place: usize,
    p: usize,
    store: &mut Store,
    wires: &mut ArrayVec<Cone, 128>,
) -> bool
    requires long { kept_length ≤ length state.now }
    requires sound { Sound (circuit_of settings circuit.now) }
    requires place { place < length circuit.now.gates.items }
    ensures right { (st : State) → StandsIn state.now (circuit_of settings circuit.now) place st → (result ≡ true) × (state_of store.new wires.new.items ≡ st) }
    ensures told { Unaltered state.now → result ≡ true → (st : State) × (StandsIn state.now (circuit_of settings circuit.now) place st × (state_of store.new wires.new.items ≡ st)) }
    ensures reached { result ≡ true → Reached p circuit.now place store.new wires.new.items }
{
    let inputs = circuit.inputs.len();
    is_header(
        state,
        settings,
        &circuit.inputs,
        &circuit.gates[..place],
        &circuit.outputs,
    ) && restore_state(
        &state[2062..34704],
        p,
        inputs + place,
        inputs + 6 * place,
        store,
        wires,
    )
}
