// Gates of a circuit in turn: each mapped, forced where it must be, and put among the wires.
// It leans on one gate (`gate`).
#![tactic(auto)]

pub mod start;

ghost use Rattle.std.specs.Prelude.{◌≡◌, map, ℕ, ◌+◌, ◌*◌, ◌^◌, ◌≤◌, ◌<◌, length, IfOk, OnOk};
ghost use Rattle.rules.specs.Mapper.{used_settings, is_forced, cone_at, map_gate, map_gates};
ghost use Rattle.retuning.specs.Retune as retune;
ghost use Rattle.forms.specs.Forms.{output_of};
ghost use Rattle.circuit.specs.View.{answers_of, gate_of};
ghost use Rattle.cone.specs.View.{cone_of};
ghost use Rattle.cone.specs.Sources.{Stands};
ghost use Rattle.nodes.specs.declared.store.Store as S;
ghost use Rattle.nodes.specs.Store.{store_of};
ghost use Rattle.bootstrap.specs.View.{Boots, booted_of};
ghost use Rattle.gate.specs.View.{Maps, mapped_of};
ghost use Rattle.gates.specs.Wired.{WireIn, Wired, renewed, state_of};
ghost use Rattle.gates.specs.Gates.{named, forced_cone, cones_of, settled, GoodFunction, GoodGates, gate_next, next_read, state_read, Worked};

use arrayvec::ArrayVec;
use bootstrap::boot::bootstrap_cone;
use circuit::{Function, Gate};
use cone::Cone;
use cone::settings::ValidSettings;
use forms::Output;
use gate::map::{Mapped, map_unary, map_with_two_wires};
use nodes::store::Store;
use rules::{Reason, Refusal, Settings, Wire};

// The settings as they are used: Basic's are its own.
#[tactic(auto, unfolding(rules::specs::Mapper::used_settings))]
pub fn used_settings(s: Settings) -> Settings
    ensures { result ≡ used_settings s }
{
    if !s.policy.is_basic() {
        return s;
    }
    Settings {
        p: 2,
        m: if s.m == s.p { 2 } else { 4 },
        ..s
    }
}

// An output names the node.
#[tactic(auto, unfolding(rules::specs::Mapper::leads_to))]
fn is_output(outputs: &[Output<'_>], id: usize) -> bool
    ensures { result ≡ named id (map output_of outputs.now) }
{
    outputs.iter().any(|o| o.wire == Wire::Node(id))
}

// Basic bootstraps every gate; with one table a sum, the gates that an output names are.
#[tactic(auto, unfolding(rules::specs::Mapper::is_forced, crate::specs::Gates::named))]
fn is_forced(s: Settings, outputs: &[Output<'_>], id: usize) -> bool
    ensures { result ≡ is_forced s (map output_of outputs.now) id }
{
    s.policy.is_basic() || (!s.many && is_output(outputs, id))
}

// The cone of a wire.
pub fn wire_cone(wires: &ArrayVec<Cone, 128>, wire: Wire) -> Cone
    requires { WireIn (length wires.now.items) wire }
    ensures is { cone_of result ≡ cone_at (map cone_of wires.now.items) wire }
    ensures stands { (store : S.Store) (n : ℕ) → Wired store wires.now.items n → Stands (length (store_of store)) result }
{
    match wire {
        Wire::Node(id) => wires[id],
        Wire::Const(b) => Cone::constant(b),
    }
}

// map_gate: the function over the cones of its wires. Store and wires are no struct: here the wires are read while the store changes, and
// `update_wires` changes them alone.
fn map_gate(
    s: ValidSettings,
    store: &mut Store,
    wires: &ArrayVec<Cone, 128>,
    function: Function,
) -> Result<Mapped, Reason>
    requires { (length (store_of store.old) + 4 ≤ 672) × (Wired store.old wires.now.items (length wires.now.items) × GoodFunction (length wires.now.items) function) }
    ensures is { mapped_of store.new result ≡ map_gate s.settings (store_of store.old) (cones_of wires.now.items function) (answers_of function) }
    ensures stands { IfOk result (λ m. Maps s.settings.p store.old 4 store.new m) }
{
    match function {
        Function::Unary(wire, answers) => {
            map_unary(s.settings, store, wire_cone(wires, wire), answers)
        }
        Function::Binary(left, right, answers) => map_with_two_wires(
            s,
            store,
            wire_cone(wires, left),
            wire_cone(wires, right),
            answers,
        ),
    }
}

// The cone of the gate of that number, bootstrapped where the policy or an output asks for it.
fn forced(
    s: ValidSettings,
    store: &mut Store,
    outputs: &[Output<'_>],
    id: usize,
    cone: Cone,
) -> Cone
    requires { (length (store_of store.old) + 2 ≤ 672) × Stands (length (store_of store.old)) cone }
    ensures is { booted_of store.new result ≡ forced_cone (is_forced s.settings (map output_of outputs.now) id) s.settings (store_of store.old) (cone_of cone) }
    ensures stands { Boots s.settings.p store.old store.new result }
{
    if is_forced(s.settings, outputs, id) {
        return bootstrap_cone(s, store, cone);
    }
    cone
}

// A bootstrapped cone takes its wire's place; a constant keeps its cone.
#[tactic(auto, unfolding(crate::specs::Wired::renewed))]
fn update_wire(wires: &mut ArrayVec<Cone, 128>, wire: Wire, update: Option<Cone>)
    requires { WireIn (length wires.old.items) wire }
    ensures { wires.new.items ≡ renewed wire update wires.old.items }
{
    if let (Wire::Node(id), Some(cone)) = (wire, update) {
        wires[id] = cone;
    }
}

// The gate's bootstrapped cones take the places of their wires.
#[tactic(auto, unfolding(crate::specs::Gates::settled))]
fn update_wires(
    wires: &mut ArrayVec<Cone, 128>,
    function: Function,
    first: Option<Cone>,
    second: Option<Cone>,
)
    requires { GoodFunction (length wires.old.items) function }
    ensures { wires.new.items ≡ settled function first second wires.old.items }
{
    match function {
        Function::Unary(wire, _) => update_wire(wires, wire, first),
        Function::Binary(left, right, _) => {
            update_wire(wires, left, first);
            update_wire(wires, right, second);
        }
    }
}

// One gate, which is the circuit's next node.
fn map_one(
    s: ValidSettings,
    store: &mut Store,
    wires: &mut ArrayVec<Cone, 128>,
    outputs: &[Output<'_>],
    function: Function,
) -> Result<(), Reason>
    requires { (length (store_of store.old) + 6 ≤ 672) × ((length wires.old.items < 128) × (Wired store.old wires.old.items (length wires.old.items) × GoodFunction (length wires.old.items) function)) }
    ensures is { next_read store.new wires.new.items result ≡ gate_next s.settings (map output_of outputs.now) (state_of store.old wires.old.items) function }
    ensures works { OnOk result (Worked s.settings.p store.old 6 store.new wires.new.items (length wires.old.items + 1)) }
{
    let mapped = map_gate(s, store, wires, function)?;
    let own = forced(s, store, outputs, wires.len(), mapped.cone);
    update_wires(wires, function, mapped.first, mapped.second);
    wires.push(own);
    Ok(())
}

// The loop of map_once over gates, any that stand next in the circuit: each node before them has a wire. `begun` counts those whose mapping begins.
pub fn map_gates(
    s: ValidSettings,
    store: &mut Store,
    wires: &mut ArrayVec<Cone, 128>,
    gates: &[Gate],
    outputs: &[Output<'_>],
    begun: &mut usize,
) -> Result<(), Refusal>
    requires room { length (store_of store.old) + 6 * length gates.now ≤ 672 }
    requires wired { Wired store.old wires.old.items (length wires.old.items) }
    requires good { GoodGates (length wires.old.items) gates.now }
    requires count { begun.old + length gates.now < 2 ^ 64 }
    ensures is { state_read store.new wires.new.items result ≡ map_gates s.settings (map output_of outputs.now) (state_of store.old wires.old.items) (map gate_of gates.now) }
    ensures begun { begun.new ≡ begun.old + retune.begun s.settings (map output_of outputs.now) (state_of store.old wires.old.items) (map gate_of gates.now) }
    ensures works { OnOk result (Worked s.settings.p store.old (6 * length gates.now) store.new wires.new.items (length wires.old.items + length gates.now)) }
{
    for gate in gates {
        *begun += 1;
        let next = map_one(s, store, wires, outputs, gate.function);
        next.map_err(|reason| Refusal {
            reason,
            line: gate.line,
        })?;
    }
    Ok(())
}
