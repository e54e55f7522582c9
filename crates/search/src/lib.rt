// The search for the scale pair under which two cones become one. It leans on `compose`,
// `scale_pair`, `merged_rows`, `rotation`, `known_rows`, `linear`, `cone` and the store (`nodes`, `lut`).
#![tactic(auto)]

pub mod context;

ghost use Rattle.std.specs.Prelude.{◌≡◌, List, ℕ, ◌≤◌, ◌<◌, ◌^◌, nat_abs, ◌*ℤ◌, take};
ghost use Rattle.std.proofs.Math.Option.{some};
ghost use Rattle.rules.specs.Builder.{completable};
ghost use Rattle.rules.specs.Cone.{Cone};
ghost use Rattle.rotation.specs.Entries.{numbers};
ghost use Rattle.merged_rows.specs.EnergyRows.{Small};
ghost use Rattle.merged_rows.specs.EnergyMoments.{by_moments};
ghost use Rattle.compose.specs.Basis.{lefts, rights};
ghost use Rattle.scale_pair.specs.Pair.{Scaling};
ghost use Rattle.search.specs.Policies.{one_pair, ranges_of, Attempted, Finds};
ghost use Rattle.nodes.specs.Store.{store_of};
ghost use Rattle.search.specs.Reuse.{SumOf};
ghost use Rattle.search.specs.Search.{context_of, considered as consideredBy, energy_by, reuse_of, step_at, walk_all, Ready, InSpans, Scored, Merges};

use crate::context::Context;
use compose::basis::Basis;
use cone::weights::weights_of;
use linear::linear_span;
use merged_rows::energy::Moments;
use nodes::terms::Terms;
use rules::{Entry, Policy};
use scale_pair::pair::{Pair, evaluate, prepare_coefficients};
use scale_pair::score::{Rank, Score, better};

// The scales from start up to and not including end. No `Range`: the pairs are `Copy`, and a `Range` is not.
#[derive(Clone, Copy)]
pub struct Scales {
    pub start: i64,
    pub end: i64,
}

// The scale pairs that are tried: each a with each b.
#[derive(Clone, Copy)]
pub struct Ranges {
    pub a: Scales,
    pub b: Scales,
}

impl Ranges {
    // The pair (a, b) alone.
    fn one(a: i64, b: i64) -> Ranges
        requires { Scaling a b }
        ensures { result ≡ one_pair a b }
    {
        Ranges {
            a: Scales {
                start: a,
                end: a + 1,
            },
            b: Scales {
                start: b,
                end: b + 1,
            },
        }
    }
}

// For scales a and b, or 2·a, and a moment.
#[tactic(auto, using(crate::specs::Search::weighted_small))]
fn weighted(a: i64, b: i64, moment: i64) -> i64
    requires { (nat_abs a ≤ 64) × ((nat_abs b ≤ 32) × (nat_abs moment ≤ 2 ^ 40)) }
    ensures is { result ≡ (a *ℤ b) *ℤ moment }
    ensures small { nat_abs result ≤ 2 ^ 51 }
{
    a * b * moment
}

// EnergyMoments::energy, before it is divided.
#[tactic(auto, using(laws::specs::Integer::abs_add, laws::specs::Integer::fits_abs), unfolding(merged_rows::specs::EnergyMoments::by_moments))]
fn energy_sum(moments: Moments, a: i64, b: i64) -> i64
    requires { Small moments × Scaling a b }
    ensures is { result ≡ by_moments a b moments.xx moments.xy moments.yy }
    ensures small { nat_abs result < 2 ^ 63 }
{
    weighted(a, a, moments.xx) + weighted(2 * a, b, moments.xy) + weighted(b, b, moments.yy)
}

// EnergyMoments::energy over the divisor's square.
#[tactic(auto, using(laws::specs::Integer::abs_mul, laws::specs::Integer::fits_abs), unfolding(crate::specs::Search::energy_by))]
fn energy_of(moments: Moments, pair: Pair) -> u64
    requires { Small moments × Scored pair }
    ensures { result ≡ energy_by moments pair }
{
    (energy_sum(moments, pair.a, pair.b) / (pair.divisor * pair.divisor)).unsigned_abs()
}

// The sum of a pair: its values less the least one.
fn sum_of(basis: &Basis, pair: Pair) -> Terms
    requires { Scored pair }
    ensures { SumOf basis.now pair result }
{
    let coefs = prepare_coefficients(basis, pair.a, pair.b);
    Terms::over(-pair.low, &coefs[..basis.n], basis.sources())
}

// 0 where the pair's sum is already bootstrapped, with many tables a sum; else 1.
#[tactic(auto, using(crate::specs::Reuse::sum_linear, crate::specs::Reuse::sum_good), unfolding(crate::specs::Search::reuse_of, rules::specs::Composition::reuse_cost))]
fn reuse_cost(context: Context, pair: Pair) -> usize
    requires { Scored pair × Merges (lefts context.basis.now) (rights context.basis.now) pair }
    ensures { result ≡ reuse_of (context_of context.entry) pair }
{
    if context.settings.many
        && lut::reuse::has_bootstrap(context.store, sum_of(context.basis, pair))
    {
        0
    } else {
        1
    }
}

#[tactic(auto, using(rotation::specs::Entries::numbers_take))]
fn is_completable(known: [Entry; 32], span: usize, p: usize) -> bool
    requires { span ≤ 32 }
    ensures { result ≡ completable p (take span (numbers known)) }
{
    rotation::is_known_lut_valid(&known[..span], p)
}

// The better of the best so far and this pair, whose rows gave the known entries without a clash.
#[tactic(auto, unfolding(crate::specs::Search::considered, crate::specs::Search::score_of))]
fn considered(
    context: Context,
    best: Option<Score>,
    pair: Pair,
    known: [Entry; 32],
) -> Option<Score>
    requires { Scored pair × Merges (lefts context.basis.now) (rights context.basis.now) pair }
    ensures { result ≡ consideredBy (context_of context.entry) pair best (some (numbers known)) }
{
    if !is_completable(known, pair.span, context.settings.p) {
        return best;
    }
    let rank = Rank {
        reuse: reuse_cost(context, pair),
        span: pair.span,
        norm: pair.norm,
        energy: energy_of(context.moments, pair),
        a: pair.a,
        b: pair.b,
    };
    Some(better(best, Score { rank, known }))
}

// search_candidate: the least score among the scale pairs, norms by the sources' weights, if there is one.
fn search(context: Context, ranges: Ranges, xs: &[i32], ys: &[i32], truth: &[u8]) -> Option<Score>
    requires { Ready context xs.now ys.now truth.now × InSpans ranges }
    ensures { result ≡ walk_all (step_at (context_of context.entry) xs.now ys.now truth.now) ranges None }
{
    let weights = weights_of(context.store, context.basis.sources());
    let mut best = None;
    for a in ranges.a.start..ranges.a.end {
        'pair: for b in ranges.b.start..ranges.b.end {
            let Some(pair) = evaluate(context.basis, &weights, context.settings, a, b) else {
                continue 'pair;
            };
            let mut known = [Entry::Unknown; 32];
            // By the index: `((&x, &y), &bit)` over two zips is no plainer, and a small program with that loop, 256 rows, took 1.35 times as long.
            for i in 0..xs.len() {
                let at = pair.level(xs[i], ys[i]);
                let Some(entry) = known_rows::with_truth(known[at], truth[i]) else {
                    // A row that conflicts leaves for the next pair.
                    continue 'pair;
                };
                known[at] = entry;
            }
            best = considered(context, best, pair, known);
        }
    }
    best
}

// The pairs that a policy tries, by the left and the right span. Naive: (right, 1). The others, of two forms that differ: each a from 0 to right with
// each b from -left to left. Of two equal forms (0, 1) alone: every other pair gives the same sum, and comes later.
fn ranges_of(same_form: bool, policy: Policy, left: usize, right: usize) -> Ranges
    requires { (left ≤ 32) × (right ≤ 32) }
    ensures { result ≡ ranges_of same_form policy left right }
{
    let left = left as i64;
    let right = right as i64;
    match (policy, same_form) {
        (Policy::Naive, _) => Ranges::one(right, 1),
        (_, true) => Ranges::one(0, 1),
        (_, false) => Ranges {
            a: Scales {
                start: 0,
                end: right + 1,
            },
            b: Scales {
                start: -left,
                end: left + 1,
            },
        },
    }
}

// find_candidate: for two cones laid over their sources together, the score of the best scale pair. Over these sources a cone has the same span.
// Asks for rows that are rows of both tables.
#[tactic(auto, using(compose::specs::Basis::lefts_within, compose::specs::Basis::rights_within))]
pub fn find_candidate(context: Context, xs: &[i32], ys: &[i32], truth: &[u8]) -> Option<Score>
    requires { Ready context xs.now ys.now truth.now }
    ensures { (left right : Cone) (all counts : List ℕ) → Attempted left right all counts context.entry.basis.now xs.now ys.now truth.now context.entry.moments → Finds context.entry.settings (store_of context.entry.store.now) left right all result }
{
    let left = context.basis.left();
    let right = context.basis.right();
    let same_form = left == right;
    let policy = context.settings.policy;
    let ranges = ranges_of(same_form, policy, linear_span(left), linear_span(right));
    search(context, ranges, xs, ys, truth)
}
