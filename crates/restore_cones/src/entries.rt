// The known entries of a cell, made anew from the truths that they give the rows.
ghost use Rattle.std.specs.Prelude.{◌≡◌, ◌≤◌, length};
ghost use Rattle.rules.specs.Builder.{known_entries};
ghost use Rattle.rules.specs.Cone.{linear_table};
ghost use Rattle.rules.specs.Span.{span};
ghost use Rattle.known_rows.specs.Entries.{first_numbers};
ghost use Rattle.restore_cones.specs.Cell.{truths_in};

use linear::{linear_least, linear_table, rows_of};
use rules::Entry;

// None where a row has no truth: each has the entry at its value.
pub fn read_entries(entries: &[u8], coefs: &[i64]) -> Option<[Entry; 32]>
    requires few { length coefs.now ≤ 11 }
    requires narrow { span (linear_table coefs.now) ≤ 32 }
    requires long { 32 ≤ length entries.now }
    ensures { first_numbers (span (linear_table coefs.now)) result ≡ known_entries (linear_table coefs.now) (truths_in coefs.now entries.now) }
{
    let low = linear_least(coefs) as i32;
    let rows = rows_of(coefs.len());
    let mut values = [0; 2048];
    linear_table(coefs, &mut values);
    let values = &values[..rows];
    let mut truths = [0; 2048];
    known_rows::look_up(entries, low, values, &mut truths);
    known_rows::enter(values, &truths[..rows], low)
}
