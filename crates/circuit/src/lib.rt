// A circuit's text read, or its refusal 1 to 7 with the line. It leans on one line's reader (`circuit_text`), on the
// conditions (`circuit_conditions`) and on a table's limits (`rotation`).
#![tactic(auto)]

mod take;

ghost use Rattle.std.specs.Prelude.{◌≡◌, [], ◌∷◌};
ghost use Rattle.rules.specs.declared.Wire.TheVariants.{Const};
ghost use Rattle.rules.specs.CircuitText.{read_circuit};
ghost use Rattle.circuit.specs.View.{gate_of, reading_of};

use forms::{Input, Output};
use packed::short::Short;
use rules::{Refusal, Settings, Wire};

// What a gate computes: its answer for each assignment of its wires, the first wire's bit the higher.
#[derive(Clone, Copy)]
pub enum Function {
    Unary(Wire, [u8; 2]),
    Binary(Wire, Wire, [u8; 4]),
}

// A gate, and the line that it stands on.
#[derive(Clone, Copy)]
pub struct Gate {
    pub line: usize,
    pub function: Function,
}

// What a list in place holds where it has no gate. By hand: `#[default]` takes only a case without fields.
impl Default for Gate {
    fn default() -> Self
        ensures { gate_of result ≡ record { bits = 0 ∷ 0 ∷ []; wires = Const 0 ∷ []; line = 0 } }
    {
        Gate {
            line: 0,
            function: Function::Unary(Wire::Const(0), [0; 2]),
        }
    }
}

// What the lines so far say, and behind the last one the whole circuit: the `fbs` line, once it came, the inputs, the gates and the outputs, whose names
// are parts of the text.
#[derive(Clone, Copy)]
pub struct Circuit<'a> {
    pub settings: Option<Settings>,
    pub inputs: Short<Input<'a>, 32>,
    pub gates: Short<Gate, 96>,
    pub outputs: Short<Output<'a>, 32>,
}

// The circuit that a text describes. It takes the place of the lent one, so that none is copied; the answer is the `fbs` line alone, as a network's
// reader answers the `net` line: who calls has lent the circuit, and has it. Each line's form finds its end: lines cut by `split_inclusive` first would
// be gone over twice.
// And a `for` over them, with a counter beside it, has an invariant with no name for the closure that finds the newlines (network's `take_lines`, where
// it was tried). An iterator of our own over (number, line) would have to hand on, beside its items, the number of the line behind the last: `finish`
// wants it.
#[tactic(auto, using(crate::specs::Reading::reads_start, crate::specs::Reading::reads_end, crate::specs::Reading::reads_refused, crate::specs::Reading::reads_next, text::specs::FirstLine::after_shorter))]
pub fn read<'a>(text: &'a [u8], circuit: &mut Circuit<'a>) -> Result<Settings, Refusal>
    ensures { reading_of result circuit.new ≡ read_circuit text.now }
{
    circuit.clear();
    let mut rest = text;
    let mut line = 1;
    while !rest.is_empty() {
        rest = circuit
            .take_line(line, rest)
            .map_err(|reason| Refusal { reason, line })?;
        line += 1;
    }
    circuit.finish(line)
}
