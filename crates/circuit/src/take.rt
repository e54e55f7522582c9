// A line taken: judged by those before it, and added to them.
ghost use Rattle.std.specs.Prelude.{◌≡◌, ℕ, ◌≤◌, OnOk, IfOk, IfSome, length, map};
ghost use Rattle.laws.specs.Test.{is_some};
ghost use Rattle.rules.specs.Circuit.{given_names};
ghost use Rattle.rules.specs.CircuitText.{nothing, with_line, ended, circuit_line, listed, node_count};
ghost use Rattle.rules.specs.Form.{bits_from};
ghost use Rattle.rules.specs.Refusal.{number_met};
ghost use Rattle.forms.specs.Forms.{given_of, output_of};
ghost use Rattle.text.specs.FirstLine.{first_line, after_line};
ghost use Rattle.text.specs.Judged.{lowest};
ghost use Rattle.circuit_conditions.specs.Wires.{shape, wires_of as wires_kept};
ghost use Rattle.circuit_text.specs.Brief.{FbsBrief, InBrief, GateBrief, OutBrief, brief_conditions, brief_of, told};
ghost use Rattle.circuit.specs.View.{wires_of, answers_of, counts_of, option_of, reading_of, prefix_of};
ghost use Rattle.circuit.specs.Took.{line_number, with_form};

use crate::{Circuit, Function, Gate};
use circuit_conditions::{Counts, GateWires, Wires, is_astray};
use circuit_text::line::{Line, read_line};
use forms::{Input, Output};
use packed::short::Short;
use rules::{Reason, Refusal, Settings};
use text::digit_of;

// A gate by its wires and its bits, as they stand in the text: one wire and two bits, or two wires and four.
#[tactic(auto, unfolding(circuit_conditions::specs::Wires::shape, rules::specs::Form::bits_from))]
fn function_of(bits: &[u8], wires: Wires) -> Option<Function>
    ensures matched { is_some (option_of result) ≡ shape wires (length bits.now) }
    ensures function { IfSome result (λ f. (wires_of f ≡ wires_kept wires) × (answers_of f ≡ bits_from bits.now)) }
{
    match (wires, bits) {
        (Wires::Two(left, right), &[a, b, c, d]) => Some(Function::Binary(
            left,
            right,
            [digit_of(a), digit_of(b), digit_of(c), digit_of(d)],
        )),
        (Wires::One(wire), &[a, b]) => Some(Function::Unary(wire, [digit_of(a), digit_of(b)])),
        _ => None,
    }
}

// Whether one of these inputs has the name.
fn is_listed(inputs: &[Input<'_>], name: &[u8]) -> bool
    ensures { result ≡ listed name.now (given_names (map given_of inputs.now)) }
{
    inputs.iter().any(|i| name == i.name)
}

impl<'a> Circuit<'a> {
    // Before the first line.
    #[tactic(auto, unfolding(rules::specs::CircuitText::nothing))]
    pub fn new() -> Self
        ensures { prefix_of result ≡ nothing }
    {
        Circuit {
            settings: None,
            inputs: Short::new(),
            gates: Short::new(),
            outputs: Short::new(),
        }
    }

    // As before the first line, whatever stood here.
    #[tactic(auto, unfolding(rules::specs::CircuitText::nothing))]
    pub(crate) fn clear(&mut self)
        ensures { prefix_of self.new ≡ nothing }
    {
        self.settings = None;
        self.inputs.clear();
        self.gates.clear();
        self.outputs.clear();
    }

    #[tactic(auto, using(crate::specs::Took::counts))]
    fn counts(&self) -> Counts
        ensures { result ≡ counts_of (prefix_of self.now) }
    {
        Counts {
            started: self.settings.is_some(),
            inputs: self.inputs.len(),
            gates: self.gates.len(),
            outputs: self.outputs.len(),
        }
    }

    #[tactic(auto, using(crate::specs::Took::counts), unfolding(rules::specs::CircuitText::node_count))]
    fn node_count(&self) -> usize
        ensures value { result ≡ node_count (prefix_of self.now) }
        ensures few { result ≤ 128 }
    {
        self.inputs.len() + self.gates.len()
    }

    #[tactic(auto, using(crate::specs::Took::counts), unfolding(circuit_text::specs::Brief::brief_conditions, circuit_text::specs::Brief::told, rules::specs::CircuitText::with_line))]
    fn add_fbs(&mut self, settings: Settings) -> Result<(), Reason>
        ensures number { number_met result ≡ lowest (brief_conditions (prefix_of self.old) (FbsBrief settings)) }
        ensures added { (i : ℕ) → OnOk result (prefix_of self.new ≡ with_line i (prefix_of self.old) (told (FbsBrief settings))) }
    {
        let within = rotation::table_limits(settings.p, settings.m)
            && (1..=10).contains(&settings.t);
        self.counts().check_fbs(within)?;
        self.settings = Some(settings);
        Ok(())
    }

    #[tactic(auto, using(crate::specs::Took::counts), unfolding(circuit_text::specs::Brief::brief_conditions, circuit_text::specs::Brief::told, rules::specs::CircuitText::with_line))]
    fn add_input(&mut self, input: Input<'a>) -> Result<(), Reason>
        ensures number { number_met result ≡ lowest (brief_conditions (prefix_of self.old) (InBrief (given_of input.entry))) }
        ensures added { (i : ℕ) → OnOk result (prefix_of self.new ≡ with_line i (prefix_of self.old) (told (InBrief (given_of input.entry)))) }
    {
        let repeated = is_listed(&self.inputs, input.name);
        self.counts().check_in(repeated)?;
        self.inputs.push(input);
        Ok(())
    }

    #[tactic(auto, using(crate::specs::Took::counts), unfolding(text::specs::Judged::lowest, circuit_text::specs::Brief::brief_conditions, circuit_text::specs::Brief::told, rules::specs::CircuitText::with_line))]
    fn add_gate(&mut self, line: usize, bits: &[u8], v: GateWires) -> Result<(), Reason>
        ensures number { number_met result ≡ lowest (brief_conditions (prefix_of self.old) (GateBrief (bits_from bits.now) v)) }
        ensures added { OnOk result (prefix_of self.new ≡ with_line line (prefix_of self.old) (told (GateBrief (bits_from bits.now) v))) }
    {
        self.counts().check_gate(v.astray)?;
        let function = function_of(bits, v.wires).ok_or(Reason::BadGate)?;
        self.gates.push(Gate { line, function });
        Ok(())
    }

    #[tactic(auto, using(crate::specs::Took::counts), unfolding(circuit_text::specs::Brief::brief_conditions, circuit_text::specs::Brief::told, rules::specs::CircuitText::with_line))]
    fn add_output(&mut self, output: Output<'a>) -> Result<(), Reason>
        ensures number { number_met result ≡ lowest (brief_conditions (prefix_of self.old) (OutBrief (output_of output.entry))) }
        ensures added { (i : ℕ) → OnOk result (prefix_of self.new ≡ with_line i (prefix_of self.old) (told (OutBrief (output_of output.entry)))) }
    {
        let astray = is_astray(self.node_count(), output.wire);
        self.counts().check_out(astray)?;
        self.outputs.push(output);
        Ok(())
    }

    // A form, which is line `line` of the text.
    fn add(&mut self, line: usize, form: Line<'a>) -> Result<(), Reason>
        ensures number { number_met result ≡ lowest (brief_conditions (prefix_of self.old) (brief_of form.entry)) }
        ensures added { OnOk result (prefix_of self.new ≡ with_line line (prefix_of self.old) (told (brief_of form.entry))) }
    {
        match form {
            Line::Fbs(settings) => self.add_fbs(settings),
            Line::In(input) => self.add_input(input),
            Line::Gate(bits, wires) => self.add_gate(line, bits, wires),
            Line::Out(output) => self.add_output(output),
        }
    }

    // The first line of some bytes, which is line `line` of the text, and the bytes behind it.
    #[tactic(auto, using(crate::specs::Took::no_form, crate::specs::Took::line_met, crate::specs::Took::line_added))]
    pub(crate) fn take_line(&mut self, line: usize, s: &'a [u8]) -> Result<&'a [u8], Reason>
        ensures number { number_met result ≡ line_number (prefix_of self.old) (circuit_line (first_line s.now)) }
        ensures taken { IfOk result (λ rest. (rest.now ≡ after_line s.now) × (prefix_of self.new ≡ with_form line (prefix_of self.old) (circuit_line (first_line s.now)))) }
    {
        let (form, rest) = read_line(s, self.node_count()).ok_or(Reason::NoForm)?;
        self.add(line, form)?;
        Ok(rest)
    }

    // The text ends before this line.
    #[tactic(auto, unfolding(rules::specs::CircuitText::ended, rules::specs::CircuitText::with_settings))]
    pub(crate) fn finish(&self, line: usize) -> Result<Settings, Refusal>
        ensures { reading_of result self.now ≡ ended line (prefix_of self.now) }
    {
        let reason = Reason::OutOfOrder;
        self.settings.ok_or(Refusal { reason, line })
    }
}
