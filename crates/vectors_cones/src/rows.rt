// A cone by its rows, as the list has it, and whether it is one.
ghost use Rattle.std.specs.Prelude.{◌≡◌, ℕ, ◌≤◌, ◌<◌, ◌^◌, length, get_or, IfSome};
ghost use Rattle.std.specs.Bool.{OnTrue};
ghost use Rattle.rules.specs.Builder.{known_entries};
ghost use Rattle.rules.specs.Cone.{linear_table};
ghost use Rattle.rules.specs.Span.{span};
ghost use Rattle.scale.specs.Limits.{Within};
ghost use Rattle.known_rows.specs.Entries.{first_numbers};

use cone::Cone;
use linear::linear_span;
use rules::Entry;
use support::are_different;
use vectors::{Token, Tokens};

// The first n sources and coefficients, and a truth for each assignment of them. As `Cone`, whose fields they become.
#[derive(Clone, Copy)]
pub struct ConeRows {
    pub n: usize,
    pub support: [usize; 11],
    pub coefs: [i64; 11],
    pub truth: [u8; 2048],
    ghost few: { n ≤ 11 },
}

// They are nodes of a store.
fn are_near(nodes: &[usize]) -> bool
    ensures { OnTrue result ((i : ℕ) → get_or nodes.now i 0 < 672) }
{
    nodes.iter().all(|node| *node < 672)
}

fn are_small(coefs: &[i64]) -> bool
    ensures { OnTrue result (Within 31 coefs.now) }
{
    coefs.iter().all(|coef| coef.unsigned_abs() <= 31)
}

fn is_narrow(coefs: &[i64]) -> bool
    requires { length coefs.now ≤ 11 }
    ensures { OnTrue result (span (linear_table coefs.now) ≤ 32) }
{
    are_small(coefs) && linear_span(coefs) <= 32
}

// The truth at each value of the coefficients' rows, where each value has one truth.
#[tactic(auto, using(linear::specs::Table::few_rows, linear::specs::Span::narrow_small, linear::specs::Table::values_first, crate::specs::Made::taken_rows))]
fn enter_rows(coefs: &[i64], truth: &[u8]) -> Option<[Entry; 32]>
    requires { (length coefs.now ≤ 11) × ((length truth.now ≡ 2 ^ length coefs.now) × (span (linear_table coefs.now) ≤ 32)) }
    ensures { first_numbers (span (linear_table coefs.now)) result ≡ known_entries (linear_table coefs.now) truth.now }
{
    let mut values = [0; 2048];
    linear::linear_table(coefs, &mut values);
    let values = &values[..truth.len()];
    known_rows::enter(values, truth, known_rows::bounds_of(values).low)
}

// A bit for each digit, in the places in front.
pub(crate) fn fill_bits(places: &mut [u8], digits: &[u8]) {
    for (place, digit) in places.iter_mut().zip(digits) {
        *place = digit % 2;
    }
}

impl ConeRows {
    ghost use Rattle.std.specs.Prelude.{◌≡◌, ◌≤◌, length, IfSome};
    ghost use Rattle.std.specs.Bool.{OnTrue};
    ghost use Rattle.cone.specs.View.{cone_of};
    ghost use Rattle.cone.specs.Fields.{Form};
    ghost use Rattle.vectors_cones.specs.Made.{rows_of};

    pub fn read(input: &mut Tokens<'_>) -> ConeRows
        ensures { length input.new.rest.now ≤ length input.old.rest.now }
    {
        let n = input.next_or_zero().value.min(11) as usize;
        let mut numbers = [Token::default(); 11];
        input.fill_or_zero(&mut numbers[..n]);
        let support = numbers.map(|t| t.value as usize);
        input.fill_or_zero(&mut numbers[..n]);
        let coefs = numbers.map(|t| i64::from(t.signed()));
        let mut truth = [0; 2048];
        fill_bits(&mut truth, input.digits_or_fewer(1 << n));
        ConeRows {
            n,
            support,
            coefs,
            truth,
        }
    }

    // What has to hold of the sources and coefficients.
    fn is_form(&self) -> bool
        ensures { OnTrue result (Form self.now.n self.now.support self.now.coefs) }
    {
        let nodes = &self.support[..self.n];
        are_different(nodes) && are_near(nodes) && is_narrow(&self.coefs[..self.n])
    }

    // The cone, where the rows are those of one.
    #[tactic(auto, using(linear::specs::Table::few_rows))]
    pub fn cone(&self) -> Option<Cone>
        ensures { IfSome result (λ c. cone_of c ≡ rows_of self.now) }
    {
        if !self.is_form() {
            return None;
        }
        let rows = linear::rows_of(self.n);
        let known = enter_rows(&self.coefs[..self.n], &self.truth[..rows])?;
        let ConeRows {
            n,
            support,
            coefs,
            ..
        } = *self;
        Some(Cone {
            n,
            support,
            coefs,
            known,
        })
    }

    // The coefficients divided by their divisor, as the mapper's are before it simplifies; the truth at each row stays.
    #[tactic(auto, using(cone::specs::View::rows_fit))]
    pub fn normalised(cone: Cone) -> ConeRows {
        let Cone {
            n,
            support,
            mut coefs,
            ..
        } = cone;
        let mut values = [0; 2048];
        let mut truth = [0; 2048];
        cone::table::truths_of(cone, &mut values, &mut truth);
        let d = scale::coefficient_normalization_divisor(cone.coefficients());
        scale::divide_all(&mut coefs[..n], d);
        ConeRows {
            n,
            support,
            coefs,
            truth,
        }
    }
}
