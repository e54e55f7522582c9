// What a scale pair gives: the merged coefficients, normalised, and their measures.
ghost use Rattle.std.specs.Prelude.{◌≡◌, ◌&&◌, ◌≤◌, ◌<◌, leb, nat_abs, length, take};
ghost use Rattle.std.specs.Int.Signed.{quot_z};
ghost use Rattle.rules.specs.Cone.{within_norm};
ghost use Rattle.rules.specs.Scale.{divisor as divisor_of, normalised};
ghost use Rattle.scale.specs.Limits.{Within};
ghost use Rattle.merged_rows.specs.MergedValues.{merged_value};
ghost use Rattle.compose.specs.Basis.{lefts, rights};
ghost use Rattle.scale_pair.specs.Pair.{Rows, Scaling, merged_row, merged, weighed, measured, pair_of, Level, level_of};

use compose::basis::Basis;
use rules::Settings;

// The pair, the divisor of its coefficients, and of the normalised ones the least value, the span and the norm by weights.
// No struct of the two scales has their limits as ghost fields: the walk that the search promises steps at any two numbers.
// This one has not what search's `Scored` says for the same reason: the definitions (`measures`) make one of any numbers.
#[derive(Clone, Copy)]
pub struct Pair {
    pub a: i64,
    pub b: i64,
    pub divisor: i64,
    pub low: i64,
    pub span: usize,
    pub norm: u64,
}

// a·l + b·r for each source. An array, as a cone's coefficients are one: what is found becomes a cone.
#[tactic(auto, using(crate::specs::Pair::basis_rows, crate::specs::Pair::left_small, crate::specs::Pair::right_small, crate::specs::Pair::row_all), unfolding(merged_rows::specs::MergedValues::combined))]
pub fn merge_rows(basis: &Basis, a: i64, b: i64) -> [i64; 11]
    requires { Scaling a b }
    ensures rows { Rows (lefts basis.now) (rights basis.now) × (length (lefts basis.now) ≡ basis.now.n) }
    ensures merged { take basis.now.n result ≡ merged_row a b (lefts basis.now) (rights basis.now) }
{
    let left = basis.left();
    let right = basis.right();
    let mut coefs = [0i64; 11];
    // An index, one for the three arrays: of a zip over `iter_mut` the proof learns nothing of what was written (docs/proof-notes.md), and
    // `for (i, (&l, &r)) in left.iter().zip(right).enumerate()` (tried) names as many things, keeps the index for `coefs`, and has to be told by hand that l
    // and r are those at i.
    for i in 0..left.len() {
        coefs[i] = scale::scaled(a, left[i], b, right[i]);
    }
    coefs
}

// Coefficients divided by their divisor, which it answers.
#[tactic(auto, using(scale::specs::Divisor::divisor_not_zero, crate::specs::Pair::undivided), unfolding(rules::specs::Scale::normalised))]
fn normalise(coefs: &mut [i64]) -> i64
    requires { Within 1984 coefs.old }
    ensures { (result ≡ divisor_of coefs.old) × (coefs.new ≡ normalised coefs.old) }
{
    let divisor = scale::coefficient_normalization_divisor(coefs);
    if divisor != 1 {
        scale::divide_all(coefs, divisor);
    }
    divisor
}

// CandidateWorkspace::prepare_coefficients: the normalised coefficients of a pair.
#[tactic(auto, using(crate::specs::Pair::sizes), unfolding(crate::specs::Pair::merged))]
pub fn prepare_coefficients(basis: &Basis, a: i64, b: i64) -> [i64; 11]
    requires { Scaling a b }
    ensures { take basis.now.n result ≡ merged a b (lefts basis.now) (rights basis.now) }
{
    let mut coefs = merge_rows(basis, a, b);
    normalise(&mut coefs[..basis.n]);
    coefs
}

#[tactic(auto, unfolding(rules::specs::Cone::within_norm))]
fn is_within(settings: Settings, span: usize, norm: u64) -> bool
    ensures { result ≡ (leb span settings.m && within_norm settings norm) }
{
    span <= settings.m && !settings.norm.is_over(norm)
}

// The measures of prepared coefficients, where they are within the limits. Weights and settings are no record: search finds the weights, its `Context` has
// the settings.
#[tactic(auto, unfolding(crate::specs::Pair::weighed, crate::specs::Pair::measures))]
fn evaluate_prepared(
    coefs: &[i64],
    weights: &[u8; 11],
    settings: Settings,
    a: i64,
    b: i64,
    divisor: i64,
) -> Option<Pair>
    requires { (length coefs.now ≤ 11) × Within 1984 coefs.now }
    ensures { result ≡ weighed settings weights.now a b divisor coefs.now }
{
    let span = linear::linear_span(coefs);
    let norm = scale::coefficients_norm2(coefs, weights);
    if !is_within(settings, span, norm) {
        return None;
    }
    Some(Pair {
        a,
        b,
        divisor,
        low: linear::linear_least(coefs),
        span,
        norm,
    })
}

// The same of coefficients before they are divided.
#[tactic(auto, using(crate::specs::Pair::sizes), unfolding(crate::specs::Pair::measured))]
fn evaluate_merged(
    coefs: &mut [i64],
    weights: &[u8; 11],
    settings: Settings,
    a: i64,
    b: i64,
) -> Option<Pair>
    requires { (length coefs.old ≤ 11) × Within 1984 coefs.old }
    ensures { result ≡ measured settings weights.now a b coefs.old }
{
    let divisor = normalise(coefs);
    evaluate_prepared(coefs, weights, settings, a, b, divisor)
}

// CandidateWorkspace::evaluate without the rows: the pair (a, b) of two rows over sources of these weights, where it is a scale pair within the limits.
#[tactic(auto, using(crate::specs::Pair::sizes), unfolding(crate::specs::Pair::pair_of))]
pub fn evaluate(
    basis: &Basis,
    weights: &[u8; 11],
    settings: Settings,
    a: i64,
    b: i64,
) -> Option<Pair>
    requires { Scaling a b }
    ensures { result ≡ pair_of settings weights.now (lefts basis.now) (rights basis.now) a b }
{
    if !scale::is_candidate_scale_pair(a, b) {
        return None;
    }
    let mut coefs = merge_rows(basis, a, b);
    evaluate_merged(&mut coefs[..basis.n], weights, settings, a, b)
}

// A value divided by the divisor. Most divisors are 1, and a division costs more than the test, for each row of each pair.
#[tactic(auto, using(crate::specs::Pair::quotient_small))]
fn quotient(value: i64, divisor: i64) -> i64
    requires { (nat_abs value ≤ 1984) × (0 < nat_abs divisor) }
    ensures is { result ≡ quot_z value divisor }
    ensures small { nat_abs result ≤ 1984 }
{
    if divisor == 1 { value } else { value / divisor }
}

impl Pair {
    // A row's value under the pair.
    #[tactic(auto, unfolding(merged_rows::specs::MergedValues::combined, merged_rows::specs::MergedValues::merged_value))]
    fn value(self, x: i32, y: i32) -> i64
        requires { Level self x y }
        ensures is { result ≡ merged_value self.a self.b self.divisor x y }
        ensures small { nat_abs result ≤ 1984 }
    {
        quotient(
            scale::scaled(self.a, x as i64, self.b, y as i64),
            self.divisor,
        )
    }

    // Where a row's value stands in the pair's table.
    pub fn level(self, x: i32, y: i32) -> usize
        requires { Level self x y }
        ensures { result ≡ level_of self x y }
    {
        (self.value(x, y) - self.low) as usize
    }
}
