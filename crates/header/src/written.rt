// A mark, the settings, the counts, and a cell for each input, gate and output.
ghost use Rattle.std.specs.Prelude.{◌≡◌, ◌∷◌, ◌++◌, ◌<◌, map, All};
ghost use mathlib.Core.List.{flat_map};
ghost use Rattle.forms.specs.Forms.{given_of, output_of};
ghost use Rattle.circuit.specs.View.{wires_of, gate_of};
ghost use Rattle.lines.specs.Put.{Put, Room};
ghost use Rattle.retuning.specs.Kept.{two_bytes, padded, limit_bytes, policy_byte, flag_byte, settings_bytes, wire_bytes, input_cell, gate_cell, output_cell, header_bytes};
ghost use Rattle.cells.specs.Small.{SmallWire};
ghost use Rattle.header.specs.Small.{SmallLimit, SmallSettings, SmallInput, SmallGate, SmallOutput, Small};
ghost use Rattle.header.specs.Header.{function_bytes};

use cells::{pad, put_counted, put_given, put_two, put_wire};
use circuit::{Function, Gate};
use forms::{Input, Output};
use lines::cursor::Cursor;
use rules::{Limit, Policy, Settings, Wire};

// 0 for no limit, and K + 1 for K.
#[tactic(auto, unfolding(retuning::specs::Kept::limit_bytes))]
fn limit_number(norm: Limit) -> usize
    requires { SmallLimit norm }
    ensures is { two_bytes result ≡ limit_bytes norm }
    ensures small { result < 65536 }
{
    match norm {
        Limit::Unlimited => 0,
        Limit::AtMost(k) => k + 1,
    }
}

#[tactic(auto, unfolding(retuning::specs::Kept::policy_byte))]
fn policy_byte(policy: Policy) -> u8
    ensures { result ≡ policy_byte policy }
{
    policy as u8
}

#[tactic(auto, unfolding(retuning::specs::Kept::flag_byte))]
fn flag_byte(many: bool) -> u8
    ensures { result ≡ flag_byte many }
{
    many as u8
}

#[tactic(auto, using(lines::specs::Put::pieces), unfolding(retuning::specs::Kept::settings_bytes))]
fn put_settings(cursor: &mut Cursor<'_>, settings: Settings)
    requires small { SmallSettings settings }
    requires room { Room cursor.old.at (settings_bytes settings) }
    ensures { Put (settings_bytes settings) cursor.old cursor.new }
{
    put_two(cursor, settings.p);
    put_two(cursor, settings.m);
    put_two(cursor, settings.t);
    put_two(cursor, limit_number(settings.norm));
    cursor.put_all(&[policy_byte(settings.policy), flag_byte(settings.many)]);
}

fn put_input(cursor: &mut Cursor<'_>, input: Input<'_>)
    requires small { SmallInput (given_of input) }
    requires room { Room cursor.old.at (input_cell (given_of input)) }
    ensures { Put (input_cell (given_of input.entry)) cursor.old cursor.new }
{
    let start = cursor.at;
    put_given(cursor, input.name, input.weight);
    pad(cursor, start, 18);
}

fn put_inputs(cursor: &mut Cursor<'_>, inputs: &[Input<'_>])
    requires small { All SmallInput (map given_of inputs.now) }
    requires room { Room cursor.old.at (padded 576 (flat_map input_cell (map given_of inputs.now))) }
    ensures { Put (padded 576 (flat_map input_cell (map given_of inputs.now))) cursor.old cursor.new }
{
    let start = cursor.at;
    for &input in inputs {
        put_input(cursor, input);
    }
    pad(cursor, start, 576);
}

// A gate of one wire.
#[tactic(auto, using(lines::specs::Put::pieces))]
fn put_unary(cursor: &mut Cursor<'_>, wire: Wire, answers: &[u8])
    requires small { SmallWire wire }
    requires room { Room cursor.old.at (1 ∷ wire_bytes wire ++ answers.now) }
    ensures { Put (1 ∷ wire_bytes wire ++ answers.now) cursor.old cursor.new }
{
    cursor.put(1);
    put_wire(cursor, wire);
    cursor.put_all(answers);
}

// A gate of two.
#[tactic(auto, using(lines::specs::Put::pieces))]
fn put_binary(cursor: &mut Cursor<'_>, left: Wire, right: Wire, answers: &[u8])
    requires small { SmallWire left × SmallWire right }
    requires room { Room cursor.old.at (2 ∷ wire_bytes left ++ wire_bytes right ++ answers.now) }
    ensures { Put (2 ∷ wire_bytes left ++ wire_bytes right ++ answers.now) cursor.old cursor.new }
{
    cursor.put(2);
    put_wire(cursor, left);
    put_wire(cursor, right);
    cursor.put_all(answers);
}

// How many wires a gate has, they themselves, and its bits.
fn put_function(cursor: &mut Cursor<'_>, function: Function)
    requires small { All SmallWire (wires_of function) }
    requires room { Room cursor.old.at (function_bytes function) }
    ensures { Put (function_bytes function) cursor.old cursor.new }
{
    match function {
        Function::Unary(wire, answers) => put_unary(cursor, wire, &answers),
        Function::Binary(left, right, answers) => put_binary(cursor, left, right, &answers),
    }
}

fn put_gate(cursor: &mut Cursor<'_>, gate: Gate)
    requires small { SmallGate (gate_of gate) }
    requires room { Room cursor.old.at (gate_cell (gate_of gate)) }
    ensures { Put (gate_cell (gate_of gate)) cursor.old cursor.new }
{
    let start = cursor.at;
    put_function(cursor, gate.function);
    pad(cursor, start, 9);
}

fn put_gates(cursor: &mut Cursor<'_>, gates: &[Gate])
    requires small { All SmallGate (map gate_of gates.now) }
    requires room { Room cursor.old.at (padded 864 (flat_map gate_cell (map gate_of gates.now))) }
    ensures { Put (padded 864 (flat_map gate_cell (map gate_of gates.now))) cursor.old cursor.new }
{
    let start = cursor.at;
    for &gate in gates {
        put_gate(cursor, gate);
    }
    pad(cursor, start, 864);
}

fn put_output(cursor: &mut Cursor<'_>, output: Output<'_>)
    requires small { SmallOutput (output_of output) }
    requires room { Room cursor.old.at (output_cell (output_of output)) }
    ensures { Put (output_cell (output_of output.entry)) cursor.old cursor.new }
{
    let start = cursor.at;
    put_wire(cursor, output.wire);
    put_counted(cursor, output.name);
    pad(cursor, start, 19);
}

fn put_outputs(cursor: &mut Cursor<'_>, outputs: &[Output<'_>])
    requires small { All SmallOutput (map output_of outputs.now) }
    requires room { Room cursor.old.at (padded 608 (flat_map output_cell (map output_of outputs.now))) }
    ensures { Put (padded 608 (flat_map output_cell (map output_of outputs.now))) cursor.old cursor.new }
{
    let start = cursor.at;
    for &output in outputs {
        put_output(cursor, output);
    }
    pad(cursor, start, 608);
}

#[tactic(auto, using(lines::specs::Put::pieces), unfolding(retuning::specs::Kept::header_bytes))]
pub fn put_header(
    cursor: &mut Cursor<'_>,
    settings: Settings,
    inputs: &[Input<'_>],
    gates: &[Gate],
    outputs: &[Output<'_>],
)
    requires small { Small settings (map given_of inputs.now) (map gate_of gates.now) (map output_of outputs.now) }
    requires room { Room cursor.old.at (header_bytes settings (map given_of inputs.now) (map gate_of gates.now) (map output_of outputs.now)) }
    ensures { Put (header_bytes settings (map given_of inputs.now) (map gate_of gates.now) (map output_of outputs.now)) cursor.old cursor.new }
{
    cursor.put(1);
    put_settings(cursor, settings);
    cursor.put_all(&[inputs.len() as u8, gates.len() as u8, outputs.len() as u8]);
    put_inputs(cursor, inputs);
    put_gates(cursor, gates);
    put_outputs(cursor, outputs);
}
