// The start of map_once: the inputs are the first nodes, and each is its own cone.
ghost use Rattle.std.specs.Prelude.{◌<◌, length, map};
ghost use Rattle.rules.specs.Network.{Input};
ghost use Rattle.forms.specs.Forms.{given_of};
ghost use Rattle.nodes.specs.Store.{store_of, Adds};
ghost use Rattle.nodes.specs.View.{given};
ghost use Rattle.gates.specs.Start.{GoodInput, GoodInputs, Started};

use arrayvec::ArrayVec;
use circuit::Circuit;
use cone::Cone;
use nodes::node::LutNode;
use nodes::store::Store;

// An input is a node.
fn put_input(store: &mut Store, name: &[u8], weight: u8)
    requires { (length (store_of store.old) < 672) × GoodInput (given name.now weight) }
    ensures { Adds 0 (Input (given name.now weight)) store.old store.new }
{
    store.push(LutNode::of_input(name, weight), 0);
}

// The circuit's inputs become the first nodes, and each has its own cone among the wires, whatever both held before.
pub fn start(circuit: &Circuit<'_>, store: &mut Store, wires: &mut ArrayVec<Cone, 128>)
    requires { GoodInputs (map given_of circuit.now.inputs.items) }
    ensures { Started (map given_of circuit.now.inputs.items) store.new wires.new.items }
{
    store.clear();
    wires.clear();
    for (i, input) in circuit.inputs.iter().enumerate() {
        put_input(store, input.name, input.weight);
        wires.push(Cone::identity(i));
    }
}
