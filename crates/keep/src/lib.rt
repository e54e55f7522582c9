// The bytes of the state before a gate, written into a lent buffer: the header, the nodes and the cones. It leans on `header` and `cells`.
#![tactic(auto)]

mod cone_cells;
mod node_cells;

ghost use Rattle.std.specs.Prelude.{◌≡◌, ◌≤◌, map, length};
ghost use Rattle.laws.specs.Over.{over};
ghost use Rattle.forms.specs.Forms.{given_of, output_of};
ghost use Rattle.circuit.specs.View.{gate_of};
ghost use Rattle.retuning.specs.Kept.{kept_bytes, kept_length};
ghost use Rattle.header.specs.Small.{Small};
ghost use Rattle.keep.specs.Whole.{kept_of};

use cells::put_two;
use circuit::Gate;
use cone::Cone;
use cone_cells::put_cones;
use forms::{Input, Output};
use header::put_header;
use lines::cursor::Cursor;
use node_cells::put_nodes;
use nodes::store::Store;
use rules::Settings;

// The state stands at the buffer's front, and what is behind it stays.
pub fn keep(
    settings: Settings,
    inputs: &[Input<'_>],
    gates: &[Gate],
    outputs: &[Output<'_>],
    store: &Store,
    wires: &[Cone],
    state: &mut [u8],
)
    requires room { kept_length ≤ length state.old }
    requires small { Small settings (map given_of inputs.now) (map gate_of gates.now) (map output_of outputs.now) }
    requires few { length wires.now ≤ 128 }
    ensures { state.new ≡ over (kept_bytes (kept_of settings inputs.now gates.now outputs.now store.now wires.now)) state.old }
{
    let mut cursor = Cursor { out: state, at: 0 };
    put_header(&mut cursor, settings, inputs, gates, outputs);
    put_two(&mut cursor, store.len());
    put_nodes(&mut cursor, store);
    put_cones(&mut cursor, wires);
}
