// One attempt to merge two cones under a gate, without a bootstrap: both tables, the search and the merged cone.
// It leans on `support`, `compose`, `linear`, `merged_rows`, `scale_pair`, `search`, `cone` and the node store (`nodes`).
#![tactic(auto)]

ghost use Rattle.std.specs.Prelude.{◌≡◌, true, false, length, take, IfSome};
ghost use Rattle.rules.specs.Cone.{linear_table};
ghost use Rattle.rules.specs.Composition.{all_equal, compose, simplify_cone};
ghost use Rattle.rules.specs.Runs.{all_bits};
ghost use Rattle.cone.specs.View.{cone_of};
ghost use Rattle.compose.specs.Basis.{lefts, rights};
ghost use Rattle.nodes.specs.Store.{store_of};
ghost use Rattle.attempt.specs.Merged.{merged_of, Mergeable};
ghost use Rattle.attempt.specs.Pair.{FrameOf, FindsOver, Laid, Tabled, Trial, gated};
ghost use Rattle.cone.specs.Sources.{Stands};
ghost use Rattle.attempt.specs.Tried.{tried_of};

use compose::basis::Basis;
use compose::simplify::simplify_cone;
use compose::{basis_of, cone_composition_tables};
use cone::Cone;
use cone::settings::ValidSettings;
use linear::{linear_least, linear_span, rows_of};
use merged_rows::energy::energy_moments;
use merged_rows::rows::{Frame, compact_rows};
use nodes::store::Store;
use scale_pair::pair::prepare_coefficients;
use scale_pair::score::Score;
use search::context::Context;
use search::find_candidate;
use support::union_support_size;

// The grid that begins at the least values over both sources.
#[tactic(auto, using(compose::specs::Basis::lefts_within, compose::specs::Basis::rights_within))]
fn frame_of(basis: &Basis) -> Frame
    ensures { FrameOf (linear_table (lefts basis.now)) (linear_table (rights basis.now)) result }
{
    Frame {
        x_low: linear_least(basis.left()),
        y_low: linear_least(basis.right()),
        y_span: linear_span(basis.right()),
    }
}

// all_equal: whether the gate has the same answer at every row, so that the merged cone is a constant.
#[tactic(auto, unfolding(rules::specs::Composition::all_equal))]
fn all_equal(truth: &[u8]) -> bool
    ensures { result ≡ all_equal truth.now }
{
    let Some(&first) = truth.first() else {
        return true;
    };
    truth.iter().all(|&t| t == first)
}

// The best scale pair for the rows of both cones and the gate. A `Context` begins here, where the moments are known.
fn best_pair(
    s: ValidSettings,
    store: &Store,
    basis: &Basis,
    rows: usize,
    xs: &mut [i32; 2048],
    ys: &mut [i32; 2048],
    truth: &mut [u8; 2048],
) -> Option<Score>
    requires { Laid store.now basis.now × (Tabled basis.now rows xs.old ys.old truth.old × (all_equal (take rows truth.old) ≡ false)) }
    ensures { FindsOver s.settings store.now basis.now (take rows truth.old) result }
{
    let mut counts = [0; 2048];
    let n = compact_rows(frame_of(basis), rows, xs, ys, truth, &mut counts);
    let context = Context {
        settings: s.settings,
        store,
        basis,
        moments: energy_moments(xs, ys, truth, &counts, n),
    };
    let xs = &xs[..n];
    let ys = &ys[..n];
    let truth = &truth[..n];
    find_candidate(context, xs, ys, truth)
}

// merge_cones: the cone of a scale pair, without the sources that it cancels.
fn merged(basis: &Basis, best: Score) -> Cone
    requires { Mergeable basis.now best }
    ensures { cone_of result ≡ simplify_cone (merged_of basis.now best) }
{
    let coefs = prepare_coefficients(basis, best.rank.a, best.rank.b);
    let Basis { n, support, .. } = *basis;
    let known = best.known;
    simplify_cone(Cone {
        n,
        support,
        coefs,
        known,
    })
}

// An attempt over the basis, once the sources are found to be few enough.
fn composed(
    s: ValidSettings,
    store: &Store,
    left: Cone,
    right: Cone,
    basis: &Basis,
    gate: [u8; 4],
) -> Option<Cone>
    requires { Trial store.now left right basis.now × (all_bits gate ≡ true) }
    ensures is { tried_of result ≡ gated s.settings (store_of store.now) (cone_of left) (cone_of right) gate }
    ensures stands { IfSome result (Stands (length (store_of store.now))) }
{
    let mut xs = [0; 2048];
    let mut ys = [0; 2048];
    let mut truth = [0; 2048];
    cone_composition_tables(left, right, basis, gate, &mut xs, &mut ys, &mut truth);
    let rows = rows_of(basis.n);
    if all_equal(&truth[..rows]) {
        return Some(Cone::constant(truth[0]));
    }
    let best = best_pair(s, store, basis, rows, &mut xs, &mut ys, &mut truth)?;
    Some(merged(basis, best))
}

// One attempt: a constant cone, the merged cone, or none where there is no composition.
pub fn attempt(
    s: ValidSettings,
    store: &Store,
    left: Cone,
    right: Cone,
    gate: [u8; 4],
) -> Option<Cone>
    requires { Stands (length (store_of store.now)) left × Stands (length (store_of store.now)) right × (all_bits gate ≡ true) }
    ensures is { tried_of result ≡ compose s.settings (store_of store.now) (cone_of left) (cone_of right) gate }
    ensures stands { IfSome result (Stands (length (store_of store.now))) }
{
    if s.settings.t + 1 < union_support_size(left.sources(), right.sources()) {
        return None;
    }
    composed(s, store, left, right, &basis_of(left, right), gate)
}
