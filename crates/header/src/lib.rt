// The header of a kept state, which alone is compared with a text: written, and asked for at the front of bytes. It leans on `cells`.
#![tactic(auto)]

mod written;

ghost use Rattle.std.specs.Prelude.{◌≡◌, map, take, length};
ghost use Rattle.rules.specs.CircuitText.{same_name};
ghost use Rattle.forms.specs.Forms.{given_of, output_of};
ghost use Rattle.circuit.specs.View.{gate_of};
ghost use Rattle.retuning.specs.Kept.{header_bytes, header_length};
ghost use Rattle.header.specs.Small.{Small};

use circuit::Gate;
use forms::{Input, Output};
use lines::cursor::Cursor;
use rules::Settings;
pub use written::put_header;

fn begins_with(bytes: &[u8], front: &[u8]) -> bool
    ensures { result ≡ same_name (take (length front.now) bytes.now) front.now }
{
    bytes.starts_with(front)
}

// Whether these bytes begin with the header.
pub fn is_header(
    bytes: &[u8],
    settings: Settings,
    inputs: &[Input<'_>],
    gates: &[Gate],
    outputs: &[Output<'_>],
) -> bool
    requires { Small settings (map given_of inputs.now) (map gate_of gates.now) (map output_of outputs.now) }
    ensures { result ≡ same_name (take header_length bytes.now) (header_bytes settings (map given_of inputs.now) (map gate_of gates.now) (map output_of outputs.now)) }
{
    let mut header = [0; 2062];
    let mut cursor = Cursor {
        out: &mut header,
        at: 0,
    };
    put_header(&mut cursor, settings, inputs, gates, outputs);
    begins_with(bytes, cursor.out)
}
