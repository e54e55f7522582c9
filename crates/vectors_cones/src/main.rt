// Replays composing and simplifying on the cones of standard input, a line each: P, M and NORM (0 for no limit), two cones and a gate's four answers.
// A cone is the number of its sources, the sources, their coefficients and its truths. Each source weighs 1.
#![tactic(auto)]

mod rows;

ghost use Rattle.std.specs.Prelude.{◌≡◌, ◌≤◌, length};
ghost use Rattle.rules.specs.Composition.{union_support};
ghost use Rattle.cone.specs.View.{cone_of};
ghost use Rattle.nodes.specs.Store.{store_of};

use crate::rows::{ConeRows, fill_bits};
use arrayvec::ArrayVec;
use compose::basis::Basis;
use compose::simplify::simplify_cone;
use cone::Cone;
use cone::table::truths_of;
use cone::valid::{is_lut_valid, validate_cone};
use linear::rows_of;
use nodes::node::LutNode;
use nodes::store::Store;
use rules::{Limit, Policy, Reason, Settings};
use scale_pair::pair::merge_rows;
use std::io::Write;
use std::{fmt, io};
use vectors::{Cases, FromTokens, Tokens, put};

#[derive(Drop)]
struct Case {
    settings: Settings,
    left: ConeRows,
    right: ConeRows,
    gate: [u8; 4],
}

impl<'a> FromTokens<'a> for Case {
    fn read(input: &mut Tokens<'a>) -> Option<Case> {
        let p = input.next()?.value as usize;
        let m = input.next_or_zero().value as usize;
        let norm = match input.next_or_zero().value {
            0 => Limit::Unlimited,
            n => Limit::AtMost(n as usize),
        };
        let left = ConeRows::read(input);
        let right = ConeRows::read(input);
        let mut gate = [0; 4];
        fill_bits(&mut gate, input.digits_or_fewer(4));
        Some(Case {
            settings: Settings {
                p,
                m,
                t: 10,
                norm,
                policy: Policy::Span,
                many: false,
            },
            left,
            right,
            gate,
        })
    }
}

// A store of 672 inputs, each of weight 1.
#[derive(Drop)]
struct UnitInputs {
    store: Store,
    ghost all: { length (store_of store) ≡ 672 },
}

// What the Rust's validate_cone says of a cone; no cone of a mapping has an encoding that is invalid. No Result: it is printed, as one number.
// The 10 is document 01's, which `Reason` lacks (`never_ten`).
#[derive(Clone, Copy)]
enum Verdict {
    Valid,
    BadEncoding,
    Refused(Reason),
}

// Its number.
impl fmt::Display for Verdict {
    fn fmt<W: fmt::Write>(&self, f: &mut fmt::Formatter<W>) -> fmt::Result {
        let number = match self {
            Verdict::Valid => 0,
            Verdict::BadEncoding => 10,
            Verdict::Refused(reason) => reason.number(),
        };
        write!(f, "{number}")
    }
}

// ---- writing

// A value within -31..31 as a letter: P for 0.
fn letter(value: i32) -> u8 {
    u8::try_from(value.saturating_add(80)).unwrap_or(b'?')
}

// Letters, written at once.
fn show_values(out: &mut impl Write, values: &[i32]) -> io::Result<()>
    requires { length values.now ≤ 2048 }
{
    let mut letters = [0; 2048];
    for (place, value) in letters.iter_mut().zip(values) {
        *place = letter(*value);
    }
    out.write_all(&letters[..values.len()])?;
    write!(out, " ")
}

// Bits as digits, written at once.
fn show_truth(out: &mut impl Write, truth: &[u8]) -> io::Result<()>
    requires { length truth.now ≤ 2048 }
{
    let mut digits = [0; 2048];
    for (digit, bit) in digits.iter_mut().zip(truth) {
        *digit = bit | b'0';
    }
    out.write_all(&digits[..truth.len()])?;
    write!(out, " ")
}

// Each source of a basis with both coefficients.
fn show_basis(out: &mut impl Write, basis: &Basis) -> io::Result<()> {
    write!(out, "{} ", basis.n)?;
    for ((source, left), right) in basis.sources().iter().zip(basis.left()).zip(basis.right()) {
        write!(out, "{source} {left} {right} ")?;
    }
    Ok(())
}

// Span, norm and divisor.
fn show_measures(out: &mut impl Write, inputs: &UnitInputs, cone: Cone) -> io::Result<()> {
    let divisor = scale::coefficient_normalization_divisor(cone.coefficients());
    write!(
        out,
        "{} {} {divisor} ",
        cone.span(),
        cone.norm2(&inputs.store)
    )
}

fn judged(s: Settings, inputs: &UnitInputs, cone: Cone) -> Verdict {
    if !is_lut_valid(s, cone) {
        return Verdict::BadEncoding;
    }
    match validate_cone(s, &inputs.store, cone) {
        Ok(()) => Verdict::Valid,
        Err(reason) => Verdict::Refused(reason),
    }
}

// A cone, and what validate_cone says of it.
#[tactic(auto, using(cone::specs::View::rows_fit, crate::specs::Made::taken_rows))]
fn show_judged(
    out: &mut impl Write,
    s: Settings,
    inputs: &UnitInputs,
    cone: Cone,
) -> io::Result<()> {
    write!(out, "{} ", cone.n)?;
    for (source, coef) in cone.sources().iter().zip(cone.coefficients()) {
        write!(out, "{source} {coef} ")?;
    }
    let mut values = [0; 2048];
    let mut truth = [0; 2048];
    truths_of(cone, &mut values, &mut truth);
    show_truth(out, &truth[..rows_of(cone.n)])?;
    write!(out, "{}", judged(s, inputs, cone))
}

// ---- running

// The cone normalised and without unused sources.
fn show_simplified(
    out: &mut impl Write,
    s: Settings,
    inputs: &UnitInputs,
    cone: Cone,
) -> io::Result<()> {
    match ConeRows::normalised(cone).cone() {
        Some(cone) => show_judged(out, s, inputs, simplify_cone(cone)),
        None => write!(out, "no cone"),
    }
}

// The gate's truth over the union, with a times the left coefficients and the right ones.
fn show_merged(
    out: &mut impl Write,
    s: Settings,
    inputs: &UnitInputs,
    basis: &Basis,
    a: usize,
    truth: [u8; 2048],
) -> io::Result<()>
    requires { a ≤ 32 }
{
    let coefs = merge_rows(basis, a as i64, 1);
    let Basis { n, support, .. } = *basis;
    let merged = ConeRows {
        n,
        support,
        coefs,
        truth,
    };
    match merged.cone() {
        Some(cone) => show_simplified(out, s, inputs, cone),
        None => write!(out, "no cone"),
    }
}

// The union with both rows of coefficients, the three tables, and four cones simplified: both, and both merged, the left one once and as often as the right span.
#[tactic(auto, using(cone::specs::View::span_narrow, linear::specs::Table::few_rows, compose::specs::Basis::few_room, crate::specs::Made::taken_rows))]
fn run(
    out: &mut impl Write,
    s: Settings,
    inputs: &UnitInputs,
    left: Cone,
    right: Cone,
    gate: [u8; 4],
) -> io::Result<()>
    requires { length (union_support (cone_of left).support (cone_of right).support) ≤ 11 }
{
    let basis = compose::basis_of(left, right);
    let mut xs = [0; 2048];
    let mut ys = [0; 2048];
    let mut truth = [0; 2048];
    compose::cone_composition_tables(left, right, &basis, gate, &mut xs, &mut ys, &mut truth);
    show_basis(out, &basis)?;
    let rows = rows_of(basis.n);
    show_values(out, &xs[..rows])?;
    show_values(out, &ys[..rows])?;
    show_truth(out, &truth[..rows])?;
    show_simplified(out, s, inputs, left)?;
    write!(out, " ")?;
    show_simplified(out, s, inputs, right)?;
    write!(out, " ")?;
    show_merged(out, s, inputs, &basis, 1, truth)?;
    write!(out, " ")?;
    show_merged(out, s, inputs, &basis, right.span(), truth)
}

fn replay(out: &mut impl Write, inputs: &UnitInputs, case: &Case) -> io::Result<()> {
    let (Some(left), Some(right)) = (case.left.cone(), case.right.cone()) else {
        return writeln!(out, "no cone");
    };
    if support::union_support_size(left.sources(), right.sources()) > 11 {
        return writeln!(out, "no cone");
    }
    show_measures(out, inputs, left)?;
    show_measures(out, inputs, right)?;
    run(out, case.settings, inputs, left, right, case.gate)?;
    writeln!(out)
}

// ---- all cases

#[tactic(auto, using(crate::specs::Made::unit_fine))]
fn unit_inputs() -> UnitInputs {
    let mut store = Store::new();
    for _ in 0..672usize {
        store.push(LutNode::of_input(b"", 1), 0);
    }
    UnitInputs { store }
}

// A case prints less than 16,000 bytes, so the line has room for it.
fn main(rt: HostRuntime) {
    let mut buffer = [0; 65536];
    let inputs = unit_inputs();
    let mut line = ArrayVec::<u8, 16384>::new();
    for case in Cases::<Case>::read(&mut rt.stdin(), &mut buffer) {
        let _ = replay(&mut line, &inputs, &case);
        put(&rt, &mut line);
    }
}
