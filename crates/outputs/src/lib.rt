// The outputs of a circuit in turn: the wire that each is, bootstrapped where it must be. It leans on `gates` and `bootstrap`.
#![tactic(auto)]

ghost use Rattle.std.specs.Prelude.{◌≡◌, [], ◌∷◌, ℕ, map, ◌+◌, ◌*◌, ◌≤◌, ◌<◌, length, pos, negsuc};
ghost use Rattle.rules.specs.Mapper.{output_signal, map_outputs};
ghost use Rattle.rules.specs.Network.{Linear};
ghost use Rattle.forms.specs.Forms.{output_of};
ghost use Rattle.nodes.specs.Store.{store_of};
ghost use Rattle.nodes.specs.View.{term};
ghost use Rattle.cone.specs.View.{cone_of};
ghost use Rattle.cone.specs.Sources.{Stands};
ghost use Rattle.gates.specs.Wired.{Wired};
ghost use Rattle.outputs.specs.Outputs.{Negated, signal_of, signal_read, Finishes, AllIn};
ghost use Rattle.outputs.specs.OutputsWalk.{started, mapped_read, Outs};

use arrayvec::ArrayVec;
use bootstrap::boot::bootstrap_cone;
use circuit::Circuit;
use cone::Cone;
use cone::settings::ValidSettings;
use cone::unary::first_truth;
use forms::Output;
use gates::wire_cone;
use nodes::store::Store;
use nodes::terms::Terms;
use rules::Wire;

// The sum of one term that is 1 less the node.
fn negated(node: usize) -> Terms
    ensures { Negated node result }
{
    Terms::over(1, &[-1], &[node])
}

// 1 less the node. `many` is all that it needs of the settings, as `lut::linear`.
fn negation(store: &mut Store, node: usize, many: bool) -> Wire
    requires { (length (store_of store.old) < 672) × (node < length (store_of store.old)) }
    ensures is { signal_read store.new result ≡ signal_of (Linear (pos 1) (term (negsuc 0) node ∷ [])) (store_of store.old) }
    ensures finishes { (p : ℕ) → Finishes p store.old 1 store.new result }
{
    lut::linear(store, many, negated(node))
}

// output_signal: a cone of more sources is bootstrapped, and what comes of that is a node's own cone.
#[tactic(auto, using(crate::specs::Outputs::boot_signal, crate::specs::Outputs::boot_finishes))]
fn output_signal(s: ValidSettings, store: &mut Store, cone: Cone) -> Wire
    requires { (length (store_of store.old) + 2 ≤ 672) × Stands (length (store_of store.old)) cone }
    ensures is { signal_read store.new result ≡ output_signal s.settings (store_of store.old) (cone_of cone) }
    ensures finishes { Finishes s.settings.p store.old 2 store.new result }
{
    let first = first_truth(cone);
    match cone.sources() {
        [] => Wire::Const(first),
        [node] if first == 0 => Wire::Node(*node),
        [node] => negation(store, *node, s.settings.many),
        _ => {
            let own = bootstrap_cone(s, store, cone);
            Wire::Node(own.support[0])
        }
    }
}

// The outputs in turn: their wires are nodes of the network or constants. Asks that before they are nodes of the circuit or constants.
pub fn map_outputs<'a>(
    s: ValidSettings,
    store: &mut Store,
    wires: &ArrayVec<Cone, 128>,
    circuit: &Circuit<'a>,
) -> ArrayVec<Output<'a>, 32>
    requires room { (length (store_of store.old) + 2 * length circuit.now.outputs.items ≤ 672) × (length circuit.now.outputs.items ≤ 32) }
    requires wired { (length circuit.now.inputs.items + length circuit.now.gates.items ≤ 128) × Wired store.old wires.now.items (length circuit.now.inputs.items + length circuit.now.gates.items) }
    requires wires { AllIn (length circuit.now.inputs.items + length circuit.now.gates.items) (map output_of circuit.now.outputs.items) }
    ensures is { mapped_read store.new result.items ≡ map_outputs s.settings (map cone_of wires.now.items) (started (store_of store.old)) (map output_of circuit.now.outputs.items) }
    ensures outs { Outs s.settings.p store.old (length circuit.now.outputs.items) store.new result.items }
{
    let mut outputs = ArrayVec::new();
    for output in circuit.outputs.iter() {
        let wire = output_signal(s, store, wire_cone(wires, output.wire));
        outputs.push(Output {
            name: output.name,
            wire,
        });
    }
    outputs
}
