// A circuit as forms without separator, a gate with its line's number for its name. Functions, not `Display`: the types are other crates', and the names are
// bytes.
use circuit::{Circuit, Function, Gate};
use forms::{Input, Output};
use rules::{Limit, Policy, Settings, Wire};
use std::io::{self, Write};
use vectors::Bits;

fn show_settings(out: &mut impl Write, s: Settings) -> io::Result<()> {
    write!(out, "(fbs {} {} {} ", s.p, s.m, s.t)?;
    match s.norm {
        Limit::Unlimited => write!(out, "none")?,
        Limit::AtMost(n) => write!(out, "{n}")?,
    }
    let policy = match s.policy {
        Policy::Basic => "basic",
        Policy::Naive => "naive",
        Policy::Span => "span",
    };
    let tables = if s.many { "many" } else { "one" };
    write!(out, " {policy} {tables})")
}

// The weight 1 is not written.
fn show_input(out: &mut impl Write, input: Input<'_>) -> io::Result<()> {
    write!(out, "(in ")?;
    out.write_all(input.name)?;
    if input.weight != 1 {
        write!(out, " {}", input.weight)?;
    }
    write!(out, ")")
}

fn show_wire(out: &mut impl Write, wire: Wire) -> io::Result<()> {
    match wire {
        Wire::Const(b) => write!(out, " (k {b})"),
        Wire::Node(id) => write!(out, " (n {id})"),
    }
}

fn show_gate(out: &mut impl Write, gate: Gate) -> io::Result<()> {
    write!(out, "(gate {} ", gate.line)?;
    match gate.function {
        Function::Unary(wire, answers) => {
            write!(out, "{}", Bits(&answers))?;
            show_wire(out, wire)?;
        }
        Function::Binary(left, right, answers) => {
            write!(out, "{}", Bits(&answers))?;
            show_wire(out, left)?;
            show_wire(out, right)?;
        }
    }
    write!(out, ")")
}

fn show_output(out: &mut impl Write, output: Output<'_>) -> io::Result<()> {
    write!(out, "(out ")?;
    out.write_all(output.name)?;
    show_wire(out, output.wire)?;
    write!(out, ")")
}

pub fn show_circuit(out: &mut impl Write, s: Settings, c: &Circuit<'_>) -> io::Result<()> {
    write!(out, "0 ")?;
    show_settings(out, s)?;
    for &input in c.inputs.iter() {
        show_input(out, input)?;
    }
    for &gate in c.gates.iter() {
        show_gate(out, gate)?;
    }
    for &output in c.outputs.iter() {
        show_output(out, output)?;
    }
    writeln!(out)
}
