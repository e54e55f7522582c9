// A cone's value and truth at each of its rows.
ghost use Rattle.std.specs.Prelude.{◌≡◌, ◌≤◌, ◌^◌, length};
ghost use Rattle.laws.specs.Over.{over};
ghost use Rattle.rules.specs.Cone as rules;
ghost use Rattle.rules.specs.Span.{least};
ghost use Rattle.cone.specs.View.{cone_of};

use crate::Cone;
use known_rows::look_up;
use linear::{linear_table, rows_of};
use rotation::numbers_of;

// A cone's least value, as its values are held.
pub fn low_of(cone: Cone) -> i32
    ensures { result ≡ least (rules.values (cone_of cone)) }
{
    cone.least() as i32
}

// A cone's value and truth at each of its rows.
pub fn truths_of(cone: Cone, values: &mut [i32], truth: &mut [u8])
    requires { (2 ^ cone.n ≤ length values.old) × (2 ^ cone.n ≤ length truth.old) }
    ensures { (values.new ≡ over (rules.values (cone_of cone)) values.old) × (truth.new ≡ over (cone_of cone).truth truth.old) }
{
    linear_table(cone.coefficients(), values);
    let known = numbers_of(cone.known);
    look_up(&known, low_of(cone), &values[..rows_of(cone.n)], truth);
}
