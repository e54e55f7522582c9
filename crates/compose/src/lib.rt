// Two cones under a gate: their sources together, and at each row over them both values and the gate's answer. It leans on `cone`, `support` and `linear`.
#![tactic(auto)]

pub mod basis;
pub mod simplify;

ghost use Rattle.std.specs.Prelude.{◌≡◌, ◌≤◌, ◌^◌, length};
ghost use Rattle.laws.specs.Over.{over};
ghost use Rattle.rules.specs.Cone.{values};
ghost use Rattle.rules.specs.Composition.{union_support, gate_truth};
ghost use Rattle.cone.specs.View.{cone_of};
ghost use Rattle.compose.specs.Basis.{IsBasis, Room, Composed};

use crate::basis::Basis;
use cone::Cone;
use cone::table::truths_of;
use linear::{linear_table, rows_of};
use support::{coefficients_over, toggle_masks, union_support};

// CandidateWorkspace::new: coefficient_pair for each source of the union.
pub fn basis_of(left: Cone, right: Cone) -> Basis
    requires { length (union_support (cone_of left).support (cone_of right).support) ≤ 11 }
    ensures { IsBasis (cone_of left) (cone_of right) result }
{
    let union = union_support(left.sources(), right.sources());
    let support = &union.nodes[..union.n];
    Basis {
        n: union.n,
        support: union.nodes,
        left: coefficients_over(support, left.sources(), left.coefficients()),
        right: coefficients_over(support, right.sources(), right.coefficients()),
    }
}

// The gate's answer at each row over the union of the sources, by the truths of both cones' rows. The flat tables of this file are those that
// document 01 names, each lent by itself: `linear_table` fills one and reads no other.
fn composed_truth(
    left: Cone,
    right: Cone,
    lefts: &[u8],
    rights: &[u8],
    support: &[usize],
    gate: [u8; 4],
    truth: &mut [u8],
)
    requires cones { (support.now ≡ union_support (cone_of left).support (cone_of right).support) × ((length support.now ≤ 11) × (2 ^ length support.now ≤ length truth.old)) }
    requires truths { (lefts.now ≡ (cone_of left).truth) × (rights.now ≡ (cone_of right).truth) }
    ensures { truth.new ≡ over (gate_truth support.now (cone_of left) (cone_of right) gate) truth.old }
{
    let masks = toggle_masks(support, right.sources());
    let added = support.len() - left.n;
    let rows = rows_of(support.len());
    let mut right_row = 0;
    // By the row's number, which says the left row and the mask as well as the place.
    for i in 0..rows {
        let inputs = 2 * (lefts[i >> added] as usize) + (rights[right_row] as usize);
        truth[i] = gate[inputs];
        // The next row changes the digits up to its trailing zeros.
        right_row ^= masks[(i + 1).trailing_zeros() as usize];
    }
}

// The truths of both cones' rows, and the gate's answers by them; xs and ys are to work in.
fn gate_truths(
    left: Cone,
    right: Cone,
    support: &[usize],
    gate: [u8; 4],
    xs: &mut [i32],
    ys: &mut [i32],
    truth: &mut [u8],
)
    requires { (support.now ≡ union_support (cone_of left).support (cone_of right).support) × ((length support.now ≤ 11) × Room (length support.now) xs.old ys.old truth.old) }
    ensures { (xs.new ≡ over (values (cone_of left)) xs.old) × ((ys.new ≡ over (values (cone_of right)) ys.old) × (truth.new ≡ over (gate_truth support.now (cone_of left) (cone_of right) gate) truth.old)) }
{
    let mut lefts = [0; 2048];
    let mut rights = [0; 2048];
    truths_of(left, xs, &mut lefts);
    truths_of(right, ys, &mut rights);
    let lefts = &lefts[..rows_of(left.n)];
    let rights = &rights[..rows_of(right.n)];
    composed_truth(left, right, lefts, rights, support, gate, truth);
}

// For each row over the union, the values of both cones and the gate's answer.
pub fn cone_composition_tables(
    left: Cone,
    right: Cone,
    basis: &Basis,
    gate: [u8; 4],
    xs: &mut [i32],
    ys: &mut [i32],
    truth: &mut [u8],
)
    requires { IsBasis (cone_of left) (cone_of right) basis.now × Room basis.now.n xs.old ys.old truth.old }
    ensures { Composed (cone_of left) (cone_of right) gate xs.old ys.old truth.old xs.new ys.new truth.new }
{
    gate_truths(left, right, basis.sources(), gate, xs, ys, truth);
    linear_table(basis.left(), xs);
    linear_table(basis.right(), ys);
}
