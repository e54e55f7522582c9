// What the outputs need is kept of the nodes.
ghost use Rattle.std.specs.Prelude.{map, length};
ghost use Rattle.rules.specs.Store as rules;
ghost use Rattle.rules.specs.Store.{wire_needs, output_needs};
ghost use Rattle.forms.specs.Forms.{output_of};
ghost use Rattle.prune.specs.Prune.{Marking, adding};
ghost use Rattle.nodes.specs.Store.{store_of};
ghost use Rattle.gates.specs.Wired.{WireIn};
ghost use Rattle.outputs.specs.Outputs.{AllIn};
ghost use Rattle.writer.specs.Kept.{Numbered};

use forms::Output;
use nodes::store::Store;
use rules::Wire;

// An output's node is marked; a constant has none.
#[tactic(auto, using(prune::specs::Prune::adding_none, prune::specs::Prune::adding_one), unfolding(rules::specs::Store::wire_needs))]
fn mark_output(wire: Wire, marks: &mut [bool; 672])
    requires { WireIn 672 wire }
    ensures { Marking (adding (wire_needs wire)) marks.old marks.new }
{
    if let Wire::Node(node) = wire {
        marks[node] = true;
    }
}

// Those of all outputs.
#[tactic(auto, using(crate::specs::Live::marked_all))]
fn mark_outputs(outputs: &[Output<'_>], marks: &mut [bool; 672])
    requires { AllIn 672 (map output_of outputs.now) }
    ensures { Marking (adding (output_needs (map output_of outputs.now))) marks.old marks.new }
{
    for output in outputs {
        mark_output(output.wire, marks);
    }
}

// The new numbers of the nodes that are kept; the others have none.
#[tactic(auto, using(nodes::specs::Store::store_few, crate::specs::Live::wires_more))]
pub fn keep(store: &Store, outputs: &[Output<'_>]) -> [Option<u16>; 672]
    requires { AllIn (length (store_of store.now)) (map output_of outputs.now) }
    ensures { Numbered (rules.live (store_of store.now) (map output_of outputs.now)) result (length (store_of store.now)) }
{
    let mut marks = [false; 672];
    mark_outputs(outputs, &mut marks);
    prune::prune(store, &mut marks)
}
