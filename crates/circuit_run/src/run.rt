// A run of a circuit that was read.
ghost use Rattle.std.specs.Prelude.{◌≡◌, ◌≤◌, map, length, get_or};
ghost use Rattle.std.proofs.Math.Option.{some};
ghost use Rattle.laws.specs.Over.{over};
ghost use Rattle.rules.specs.declared.Settings.{Settings};
ghost use Rattle.rules.specs.Circuit.{wire_bit, gate_bit, gate_values, circuit_run};
ghost use Rattle.rules.specs.Runs.{run_reply, ran, run_on};
ghost use Rattle.circuit.specs.View.{gate_of, circuit_of};
ghost use Rattle.circuit_run.specs.Run.{output_bits};

use arrayvec::ArrayVec;
use bits::are_bits_for;
use circuit::{Circuit, Function, Gate};
use forms::Output;
use rules::{RunError, Wire};

// Bit i, or 0 where there is none; a circuit that was read asks for those that there are.
fn bit_at(bits: &[u8], i: usize) -> u8
    ensures { result ≡ get_or bits.now i 0 }
{
    bits.get(i).copied().unwrap_or(0)
}

#[tactic(auto, unfolding(rules::specs::Circuit::wire_bit))]
fn wire_bit(values: &[u8], wire: Wire) -> u8
    ensures { result ≡ wire_bit values.now wire }
{
    match wire {
        Wire::Const(b) => b,
        Wire::Node(id) => bit_at(values, id),
    }
}

// A gate is its answer for the bits of its wires.
#[tactic(auto, unfolding(rules::specs::Circuit::gate_bit, rules::specs::Circuit::position))]
fn gate_bit(values: &[u8], gate: Gate) -> u8
    ensures { result ≡ gate_bit values.now (gate_of gate) }
{
    match gate.function {
        Function::Unary(wire, answers) => bit_at(&answers, wire_bit(values, wire) as usize),
        Function::Binary(left, right, answers) => {
            let l = wire_bit(values, left) as usize;
            let r = wire_bit(values, right) as usize;
            bit_at(&answers, 2 * l + r)
        }
    }
}

// The bits of the inputs, and after them a bit for each gate.
#[tactic(auto, using(crate::specs::Run::values_next, crate::specs::Run::values_start, crate::specs::Run::values_done))]
fn gate_values(bits: &[u8], gates: &[Gate]) -> ArrayVec<u8, 128>
    requires { (length bits.now ≤ 32) × (length gates.now ≤ 96) }
    ensures { result.items ≡ gate_values bits.now (map gate_of gates.now) }
{
    let mut values = ArrayVec::new();
    values.try_extend_from_slice(bits).unwrap();
    for &gate in gates {
        values.push(gate_bit(&values, gate));
    }
    values
}

// One bit an output, in the order of the text.
#[tactic(auto, using(laws::specs::Front::filling_start, crate::specs::Run::outputs_done))]
fn put_outputs(values: &[u8], outputs: &[Output<'_>], out: &mut [u8])
    requires { length outputs.now ≤ length out.old }
    ensures { out.new ≡ over (output_bits values.now outputs.now) out.old }
{
    // An index: of a zip over `iter_mut` the proof learns nothing of what was written (docs/proof-notes.md).
    for (i, output) in outputs.iter().enumerate() {
        out[i] = wire_bit(values, output.wire);
    }
}

// A circuit run on a bit for each input; its `fbs` line changes nothing.
#[tactic(auto, using(crate::specs::Run::bad_bits, crate::specs::Run::no_room, crate::specs::Run::ran_on, crate::specs::Run::as_many, crate::specs::Run::outputs_many), unfolding(rules::specs::Circuit::circuit_run, crate::specs::Run::output_bits))]
pub fn run_read(c: &Circuit<'_>, bits: &[u8], values: &mut [u8]) -> Result<usize, RunError>
    ensures { (s : Settings) → ran (run_reply result) values.new ≡ run_on (length c.now.inputs.items) (length c.now.outputs.items) bits.now values.old (some (circuit_run (circuit_of s c.now) bits.now)) }
{
    if !are_bits_for(c.inputs.len(), bits) {
        return Err(RunError::BadBits);
    }
    if values.len() < c.outputs.len() {
        return Err(RunError::ShortBuffer);
    }
    put_outputs(&gate_values(bits, c.gates.as_slice()), &c.outputs, values);
    Ok(c.outputs.len())
}
