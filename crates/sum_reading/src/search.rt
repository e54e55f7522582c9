// All assignments of a sum's terms, and the first that gives a value.
ghost use Rattle.std.specs.Prelude.{◌≡◌, ◌≤◌, ◌<◌, length, replicate};
ghost use Rattle.laws.specs.Digits.{digits};
ghost use Rattle.laws.specs.Integer.{eq_z};
ghost use Rattle.laws.specs.Over.{over};
ghost use Rattle.rules.specs.Cone.{linear_table};
ghost use Rattle.rules.specs.SumReading.{shown, sum_reply, sum_answer};
ghost use Rattle.theorems.specs.Terms.{coefs};
ghost use Rattle.scale.specs.Limits.{Within};
ghost use Rattle.nodes.specs.View.{terms_seen};
ghost use Rattle.sum_reading.specs.Nodes.{GoodTerms};
ghost use Rattle.sum_reading.specs.Reply.{FewShown};
ghost use Rattle.sum_reading.specs.Rows.{first_place, row_reading};

use arrayvec::ArrayVec;
use linear::rows_of;
use nodes::node::Term;
use rules::Shown;

// The terms' coefficients. A loop: `collect` into an ArrayVec answers a `Result`, since it may be full.
#[tactic(auto, using(crate::specs::Nodes::coefs_none, crate::specs::Nodes::coefs_done))]
pub fn coefs_of(terms: &[Term]) -> ArrayVec<i64, 11>
    requires { GoodTerms terms.now }
    ensures { result.items ≡ coefs (terms_seen terms.now) }
{
    let mut coefs = ArrayVec::new();
    for term in terms {
        coefs.push(term.coef as i64);
    }
    coefs
}

// A function: the check proves its contract over whole numbers; in the closure it sees machine numbers.
fn is_equal(value: i32, wanted: i64) -> bool
    ensures { result ≡ eq_z value wanted }
{
    value as i64 == wanted
}

// Where a value stands first.
fn first_place(values: &[i32], wanted: i64) -> Option<usize>
    ensures { result ≡ first_place wanted values.now }
{
    values.iter().position(|&value| is_equal(value, wanted))
}

// The number of the first assignment that gives a value.
pub fn first_row(coefs: &[i64], wanted: i64) -> Option<usize>
    requires { (length coefs.now ≤ 11) × Within 1984 coefs.now }
    ensures { result ≡ first_place wanted (linear_table coefs.now) }
{
    let mut table = [0i32; 2048];
    linear::linear_table(coefs, &mut table);
    first_place(&table[..rows_of(coefs.len())], wanted)
}

// The bits of an assignment's number, the first term's the highest.
fn bits_of(n: usize, row: usize) -> [u8; 11]
    requires { n ≤ 11 }
    ensures { result ≡ over (digits n row) (replicate 11 0) }
{
    let mut bits = [0u8; 11];
    for (k, bit) in bits[..n].iter_mut().enumerate() {
        *bit = ((row >> (n - 1 - k)) % 2) as u8;
    }
    bits
}

// The bits of a row, where there is one.
#[tactic(auto, unfolding(rules::specs::SumReading::sum_answer, rules::specs::SumReading::shown, crate::specs::Rows::row_reading))]
pub fn shown(n: usize, row: Option<usize>) -> Option<Shown>
    requires { n ≤ 11 }
    ensures few { FewShown (Ok result) }
    ensures is { sum_reply (Ok result) ≡ sum_answer (shown (row_reading n row)) }
{
    let bits = bits_of(n, row?);
    Some(Shown { count: n, bits })
}
