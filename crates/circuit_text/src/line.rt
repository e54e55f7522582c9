// A line: one of the four forms. A form ends with its newline and has no other, so the line is read from the front of the text.
ghost use Rattle.std.specs.Prelude.{◌≡◌};
ghost use Rattle.rules.specs.CircuitText.{circuit_line};
ghost use Rattle.text.specs.FirstLine.{first_line};
ghost use Rattle.circuit_text.specs.LineRead.{line_of, kept, Behind};

use crate::gate::read_gate;
use crate::settings::read_fbs;
use circuit_conditions::GateWires;
use forms::{Input, Output, read_in, read_out};
use rules::Settings;

// What is kept of a line; of a gate its bits, as they stand in the text, and its wires.
#[derive(Clone, Copy)]
pub enum Line<'a> {
    Fbs(Settings),
    In(Input<'a>),
    Gate(&'a [u8], GateWires),
    Out(Output<'a>),
}

// The first line, of a text after n nodes, and what is left. Not a chain of `.or_else`: its first form would want a `.map`, and the check does not
// cover one to a form that lends its text.
pub fn read_line(s: &[u8], n: usize) -> Option<(Line<'_>, &[u8])>
    ensures line { line_of result ≡ kept n (circuit_line (first_line s.now)) }
    ensures rest { Behind s.now result }
{
    if let Some((settings, rest)) = read_fbs(s) {
        return Some((Line::Fbs(settings), rest));
    }
    if let Some((input, rest)) = read_in(s) {
        return Some((Line::In(input), rest));
    }
    if let Some(gate) = read_gate(s, n) {
        return Some(gate);
    }
    let (output, rest) = read_out(s)?;
    Some((Line::Out(output), rest))
}
