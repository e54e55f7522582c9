// A cone behind a gate of one input.
ghost use Rattle.std.specs.Prelude.{◌≡◌, true, get_or};
ghost use Rattle.rules.specs.Composition.{all_equal};
ghost use Rattle.rules.specs.Runs.{all_bits};
ghost use Rattle.cone.specs.View.{cone_of};
ghost use Rattle.cone.specs.Unary.{entry_answered};
ghost use Rattle.theorems.specs.Truths.{through_gate};

use crate::Cone;
use crate::table::low_of;
use rotation::{entry_of, known_or, number_of};
use rules::Entry;

// A known entry behind the gate: its answer for 0 or for 1; what is unknown stays so.
fn answer(entry: Entry, zero: Entry, one: Entry) -> Entry
    ensures { result ≡ entry_answered zero one entry }
{
    match entry {
        Entry::Zero => zero,
        Entry::One => one,
        Entry::Unknown => Entry::Unknown,
    }
}

// The cone of a gate of one input on a cone: the same values, the gate's answers at them. Taken apart and built again: a struct with ghost fields has no
// `..c` in Rattle.
pub fn apply_unary(c: Cone, answers: [u8; 2]) -> Cone
    requires { all_bits answers ≡ true }
    ensures { cone_of result ≡ through_gate (cone_of c) answers }
{
    let zero = entry_of(answers[0]);
    let one = entry_of(answers[1]);
    let Cone {
        n,
        support,
        coefs,
        ..
    } = c;
    let known = c.known.map(|entry| answer(entry, zero, one));
    Cone {
        n,
        support,
        coefs,
        known,
    }
}

// The first row's truth.
pub fn first_truth(c: Cone) -> u8
    ensures { result ≡ get_or (cone_of c).truth 0 0 }
{
    // The first row has the value 0.
    number_of(c.known[known_rows::offset(0, low_of(c))])
}

// all_equal: the first row's truth is the truth at every value that a row has.
#[tactic(auto, using(crate::specs::View::span_narrow))]
pub fn all_equal(c: Cone) -> bool
    ensures { result ≡ all_equal (cone_of c).truth }
{
    let first = first_truth(c);
    c.known[..c.span()]
        .iter()
        .all(|&entry| known_or(first, entry) == first)
}
