// An output's line, its node by the new number.
ghost use Rattle.std.specs.Prelude.{◌≡◌, map};
ghost use Rattle.rules.specs.Writing.{output_text, outputs_text};
ghost use Rattle.forms.specs.Forms.{output_of};
ghost use Rattle.lines.specs.Put.{Put, Room};
ghost use Rattle.writer.specs.Outputs.{new_wire, new_output, live_outputs, IsLive, AllLive};

use crate::node_lines::number_of;
use forms::Output;
use lines::cursor::Cursor;
use lines::line::put_out;
use rules::Wire;

// The wire with its node's new number.
fn new_wire(live: &[Option<u16>; 672], wire: Wire) -> Wire
    requires { IsLive live.now wire }
    ensures { result ≡ new_wire live.now wire }
{
    match wire {
        Wire::Node(node) => Wire::Node(number_of(live, node)),
        Wire::Const(b) => Wire::Const(b),
    }
}

// `(out NAME WIRE)`
#[tactic(auto, unfolding(rules::specs::Writing::output_text, lines::specs::Lines::out_text))]
fn put_output(cursor: &mut Cursor<'_>, output: Output<'_>, live: &[Option<u16>; 672])
    requires live { IsLive live.now output.wire }
    requires room { Room cursor.old.at (output_text (new_output live.now (output_of output))) }
    ensures { Put (output_text (new_output live.now (output_of output.entry))) cursor.old cursor.new }
{
    put_out(cursor, output.name, new_wire(live, output.wire));
}

// The outputs. By its parts, since a `Text` would ask of the nodes too.
pub fn put_outs(cursor: &mut Cursor<'_>, outputs: &[Output<'_>], live: &[Option<u16>; 672])
    requires all_live { AllLive live.now (map output_of outputs.now) }
    requires room { Room cursor.old.at (outputs_text (live_outputs live.now (map output_of outputs.now))) }
    ensures { Put (outputs_text (live_outputs live.now (map output_of outputs.now))) cursor.old cursor.new }
{
    for &output in outputs {
        put_output(cursor, output, live);
    }
}
