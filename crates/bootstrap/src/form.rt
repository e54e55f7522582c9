// A cone by the coefficients of a sum that is bootstrapped already.
ghost use Rattle.std.specs.Prelude.{◌≡◌, ◌≤◌, ◌<◌, length, take, IfSome};
ghost use Rattle.rules.specs.Builder.{known_entries};
ghost use Rattle.rules.specs.Cone.{linear_table, fits, better};
ghost use Rattle.rules.specs.Span.{span};
ghost use Rattle.rules.specs.Network.{is_bootstrap, node_at};
ghost use Rattle.rules.specs.Store.{realigned, ranked};
ghost use Rattle.scale.specs.Limits.{Within};
ghost use Rattle.cone.specs.View.{cone_of};
ghost use Rattle.lut.specs.Forms.{form_terms};
ghost use Rattle.nodes.specs.Store.{store_of};
ghost use Rattle.nodes.specs.View.{lut_node};
ghost use Rattle.cone.specs.Sources.{Stands};
ghost use Rattle.known_rows.specs.Entries.{first_numbers};
ghost use Rattle.bootstrap.specs.Form.{candidate_in, fitting, reformed, turned};

use cone::Cone;
use cone::order::{cone_order_key, is_less};
use cone::table::truths_of;
use linear::{linear_span, linear_table, rows_of};
use nodes::node::LutNode;
use nodes::store::Store;
use rules::{Entry, Settings};

// The cone's truths at the values of other coefficients over its sources; none where one value has two truths.
fn enter_form(c: Cone, coefs: [i64; 11]) -> Option<[Entry; 32]>
    requires { Within 31 (take c.n coefs) × (span (linear_table (take c.n coefs)) ≤ 32) }
    ensures { first_numbers (span (linear_table (take c.n coefs))) result ≡ known_entries (linear_table (take c.n coefs)) (cone_of c).truth }
{
    let mut values = [0; 2048];
    let mut truth = [0; 2048];
    truths_of(c, &mut values, &mut truth);
    linear_table(&coefs[..c.n], &mut values);
    let rows = rows_of(c.n);
    let values = &values[..rows];
    known_rows::enter(values, &truth[..rows], known_rows::bounds_of(values).low)
}

// Whether a cone may stand.
#[tactic(auto, unfolding(rules::specs::Cone::fits, rules::specs::Cone::within_norm))]
fn is_fit(s: Settings, store: &Store, c: Cone) -> bool
    requires { Stands (length (store_of store.now)) c }
    ensures { result ≡ fits s (store_of store.now) (cone_of c) }
{
    !s.norm.is_over(c.norm2(store)) && cone::valid::is_lut_valid(s, c)
}

// The cone with other coefficients over its sources, where that fits. Taken apart and built again: a struct with ghost fields has no `..c` in Rattle.
fn form_cone(s: Settings, store: &Store, c: Cone, coefs: [i64; 11]) -> Option<Cone>
    requires { Stands (length (store_of store.now)) c × Within 31 (take c.n coefs) × (s.m ≤ 32) }
    ensures is { candidate_in (store_of store.now) result ≡ fitting s (store_of store.now) (reformed (cone_of c) (take c.n coefs)) }
    ensures stands { IfSome result (Stands (length (store_of store.now))) }
{
    if s.m < linear_span(&coefs[..c.n]) {
        return None;
    }
    let known = enter_form(c, coefs)?;
    let Cone { n, support, .. } = c;
    let form = Cone {
        n,
        support,
        coefs,
        known,
    };
    is_fit(s, store, form).then_some(form)
}

// The better of the best form so far and this one: span, then norm; the first of equals stays. See scale_pair's `better`.
#[tactic(auto, unfolding(rules::specs::Cone::better, rules::specs::Store::ranked))]
fn better_form(store: &Store, best: Option<Cone>, form: Cone) -> Cone
    requires { IfSome best (Stands (length (store_of store.now))) × Stands (length (store_of store.now)) form }
    ensures is { ranked (store_of store.now) (cone_of result) ≡ better (candidate_in (store_of store.now) best) (ranked (store_of store.now) (cone_of form)) }
    ensures stands { Stands (length (store_of store.now)) result }
{
    match best {
        None => form,
        Some(best) => {
            if is_less(cone_order_key(store, form), cone_order_key(store, best)) {
                form
            } else {
                best
            }
        },
    }
}

// The best form so far, and what node i takes if it is a bootstrap.
fn consider(s: Settings, store: &Store, i: usize, c: Cone, best: Option<Cone>) -> Option<Cone>
    requires { (i < length (store_of store.now)) × Stands (length (store_of store.now)) c × IfSome best (Stands (length (store_of store.now))) × (s.m ≤ 32) }
    ensures is { candidate_in (store_of store.now) result ≡ turned s (store_of store.now) (cone_of c) (candidate_in (store_of store.now) best) (form_terms (store_of store.now) (node_at (store_of store.now) i)) }
    ensures stands { IfSome result (Stands (length (store_of store.now))) }
{
    let Some(coefs) = lut::forms::form_at(store, i, c.sources()) else {
        return best;
    };
    let Some(form) = form_cone(s, store, c, coefs) else {
        return best;
    };
    Some(better_form(store, best, form))
}

// Only a bootstrap has a form.
#[tactic(auto, unfolding(rules::specs::Network::is_bootstrap, nodes::specs::View::lut_node))]
fn is_bootstrap(node: &LutNode) -> bool
    ensures { result ≡ is_bootstrap (lut_node node.now) }
{
    matches!(node, LutNode::Bootstrap { .. })
}

// reusable_cone_coefficients: with many tables a sum, the cone by the first form of the least span and norm that fits, if there is one.
#[tactic(auto, using(crate::specs::FormWalk::walking))]
pub fn realign(s: Settings, store: &Store, c: Cone) -> Cone
    requires { Stands (length (store_of store.now)) c × (s.m ≤ 32) }
    ensures is { cone_of result ≡ realigned s (store_of store.now) (cone_of c) }
    ensures stands { Stands (length (store_of store.now)) result }
{
    if !s.many {
        return c;
    }
    let mut best = None;
    for i in 0..store.len() {
        // Most nodes are no bootstraps: a cone is not copied for them.
        if is_bootstrap(store.node(i)) {
            best = consider(s, store, i, c, best);
        }
    }
    best.unwrap_or(c)
}
