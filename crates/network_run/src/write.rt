// The outputs' values written.
ghost use Rattle.std.specs.Prelude.{◌≡◌, ◌≤◌, map, length};
ghost use Rattle.laws.specs.Over.{over};
ghost use Rattle.rules.specs.Network.{wire_value, output_values};
ghost use Rattle.forms.specs.Forms.{output_of};

use forms::Output;
use rules::Wire;

// The value of a node, or a constant; 0 where there is no such node, as the definition has it.
#[tactic(auto, unfolding(rules::specs::Network::wire_value))]
fn wire_value(node_values: &[i64], wire: Wire) -> i64
    ensures { result ≡ wire_value node_values.now wire }
{
    match wire {
        Wire::Const(b) => b as i64,
        Wire::Node(id) => node_values.get(id).copied().unwrap_or(0),
    }
}

// The outputs' values written to the buffer's front. `put_outputs` of circuit_run is the same of bits;
// one generic function would have to be told the definitions of both, and is no plainer.
#[tactic(auto, using(laws::specs::Front::filling_start, crate::specs::Write::outputs_done))]
pub fn write_values(outputs: &[Output<'_>], node_values: &[i64], values: &mut [i64])
    requires { length outputs.now ≤ length values.old }
    ensures { values.new ≡ over (output_values (map output_of outputs.now) node_values.now) values.old }
{
    // An index: of a zip over `iter_mut` the proof learns nothing of what was written (docs/proof-notes.md), and beside
    // `iter_mut().enumerate()` the outputs would still be read by an index.
    for (i, output) in outputs.iter().enumerate() {
        values[i] = wire_value(node_values, output.wire);
    }
}
