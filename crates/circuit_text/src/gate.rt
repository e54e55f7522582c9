// A gate's line.
ghost use Rattle.std.specs.Prelude.{◌≡◌};
ghost use Rattle.rules.specs.CircuitText.{gate_line};
ghost use Rattle.rules.specs.Form.{give};
ghost use Rattle.text.specs.Capped.{capped};
ghost use Rattle.text.specs.Pieces.{piece, piece_as};
ghost use Rattle.forms.specs.Wire.{cap_wire};
ghost use Rattle.circuit_conditions.specs.Wires.{no_wires};
ghost use Rattle.circuit_text.specs.Brief.{brief_of, briefed};
ghost use Rattle.circuit_text.specs.WiresRead.{spaced_wire, wires_from};

use crate::line::Line;
use circuit_conditions::{GateWires, Wires, with_wire};
use forms::read_wire;
use rules::Wire;
use text::{read_bits, read_name, read_word};

// A wire behind a space.
#[tactic(auto, unfolding(rules::specs::Form::onward, text::specs::Capped::capped, crate::specs::WiresRead::spaced_wire))]
fn spaced_wire(s: &[u8]) -> Option<(Wire, &[u8])>
    ensures { piece result ≡ capped cap_wire (spaced_wire s.now) }
{
    let s = read_word(s, b" ")?;
    read_wire(s)
}

// As many wires as there are, of a gate after n nodes.
#[tactic(auto, using(crate::specs::WiresRead::wires_next, crate::specs::WiresRead::wires_done, crate::specs::WiresRead::wires_later), unfolding(circuit_conditions::specs::Wires::no_wires))]
fn read_wires(s: &[u8], n: usize) -> (GateWires, &[u8])
    ensures { give result.0 result.1.now ≡ wires_from n no_wires s.now }
{
    let mut v = GateWires {
        wires: Wires::None,
        astray: false,
    };
    let mut left = s;
    while let Some((w, rest)) = spaced_wire(left) {
        v = with_wire(n, v, w);
        left = rest;
    }
    (v, left)
}

// `(gate NAME BITS WIRE ..)` and its newline, of a gate after n nodes.
#[tactic(auto, unfolding(rules::specs::Form::onward, rules::specs::CircuitText::gate_line, crate::specs::WiresRead::wires_from, crate::specs::WiresRead::onto, crate::specs::WiresRead::spaced_wire, crate::specs::Brief::briefed, crate::specs::Brief::brief))]
pub fn read_gate(s: &[u8], n: usize) -> Option<(Line<'_>, &[u8])>
    ensures { piece_as brief_of result ≡ briefed n (gate_line s.now) }
{
    let s = read_word(s, b"(gate ")?;
    let (_, s) = read_name(s)?;
    let s = read_word(s, b" ")?;
    let (bits, s) = read_bits(s)?;
    let (wires, s) = read_wires(s, n);
    let s = read_word(s, b")\n")?;
    Some((Line::Gate(bits, wires), s))
}
