// One gate: unary, with a constant side, or binary.
ghost use Rattle.std.specs.Prelude.{◌≡◌, true, [], ◌∷◌, ℕ, ◌+◌, ◌≤◌, length, IfOk, IfSome};
ghost use Rattle.rules.specs.Cone.{ok};
ghost use Rattle.rules.specs.Runs.{all_bits};
ghost use Rattle.rules.specs.Mapper.{unchanged, map_unary_gate, attempt as attempted, update, mapped, second_attempt, third_attempt, map_binary_gate, map_gate};
ghost use Rattle.cone.specs.View.{cone_of};
ghost use Rattle.cone.specs.Order.{side_of, sides_of};
ghost use Rattle.cone.specs.Sources.{Stands};
ghost use Rattle.nodes.specs.declared.store.Store as d;
ghost use Rattle.nodes.specs.Store.{store_of};
ghost use Rattle.bootstrap.specs.View.{Grown};
ghost use Rattle.gate.specs.View.{StandsBoth, Maps, mapped_of};
ghost use Rattle.attempt.specs.Tried.{tried_of};
ghost use Rattle.gate.specs.Gate.{room_of, Ready};

use crate::sides::{bootstrap_side, limit_sources, sides_of};
use attempt::attempt;
use cone::Cone;
use cone::order::{Side, Sides};
use cone::settings::ValidSettings;
use cone::unary::{all_equal, apply_unary, first_truth};
use cone::valid::validate_cone;
use nodes::store::Store;
use rules::{Reason, Settings};

// The gate's cone, and for each of its inputs the bootstrapped cone that takes the place of its wire's.
#[derive(Clone, Copy)]
pub struct Mapped {
    pub cone: Cone,
    pub first: Option<Cone>,
    pub second: Option<Cone>,
}

// The cone, and no side bootstrapped.
#[tactic(auto, unfolding(crate::specs::View::mapped_of, rules::specs::Mapper::unchanged))]
fn unchanged(cone: Cone) -> Mapped
    ensures is { (store : d.Store) → mapped_of store (Ok result) ≡ unchanged (store_of store) (cone_of cone) }
    ensures stands { (p : ℕ) (store : d.Store) → Stands (length (store_of store)) cone → Maps p store 4 store result }
{
    Mapped {
        cone,
        first: None,
        second: None,
    }
}

// map_unary_gate: the cone's answers through the gate's; if they are all equal, a constant.
pub fn map_unary(s: Settings, store: &Store, c: Cone, answers: [u8; 2]) -> Result<Mapped, Reason>
    requires { Stands (length (store_of store.now)) c × (all_bits answers ≡ true) }
    ensures is { mapped_of store.now result ≡ map_unary_gate s (store_of store.now) (cone_of c) answers }
    ensures stands { IfOk result (Maps s.p store.now 4 store.now) }
{
    let d = apply_unary(c, answers);
    if all_equal(d) {
        return Ok(unchanged(Cone::constant(first_truth(d))));
    }
    validate_cone(s, store, d)?;
    Ok(unchanged(d))
}

// A side's cone if it was bootstrapped: it takes the place of its wire's.
#[tactic(auto, unfolding(cone::specs::Order::side_of, rules::specs::Mapper::update))]
fn update(side: Side) -> Option<Cone>
    ensures is { tried_of result ≡ update (side_of side) }
    ensures stands { (count : ℕ) → Stands count side.cone → IfSome result (Stands count) }
{
    side.booted.then_some(side.cone)
}

// The attempt's cone; the first input's side is first again.
fn concluded(sides: Sides, cone: Cone) -> Mapped
    ensures is { (store : d.Store) → mapped_of store (Ok result) ≡ ok (mapped (sides_of (store_of store) sides) (cone_of cone)) }
    ensures stands { (p : ℕ) (old : d.Store) (more : ℕ) (new : d.Store) → Grown p old more new → StandsBoth (length (store_of new)) sides → Stands (length (store_of new)) cone → Maps p old more new result }
{
    if sides.switched {
        Mapped {
            cone,
            first: update(sides.right),
            second: update(sides.left),
        }
    } else {
        Mapped {
            cone,
            first: update(sides.left),
            second: update(sides.right),
        }
    }
}

// One of map_binary_gate's three attempts.
#[tactic(auto, unfolding(rules::specs::Mapper::attempt, cone::specs::Order::sides_of, cone::specs::Order::side_of))]
fn attempt_sides(s: ValidSettings, store: &Store, sides: Sides) -> Option<Cone>
    requires { Ready store.now sides }
    ensures is { tried_of result ≡ attempted s.settings (sides_of (store_of store.now) sides) }
    ensures stands { IfSome result (Stands (length (store_of store.now))) }
{
    attempt(s, store, sides.left.cone, sides.right.cone, sides.gate)
}

// The third attempt, after the right side is bootstrapped too.
#[tactic(auto, using(crate::specs::Gate::booting))]
fn third_attempt(s: ValidSettings, store: &mut Store, mut sides: Sides) -> Result<Mapped, Reason>
    requires { Ready store.old sides }
    ensures is { mapped_of store.new result ≡ third_attempt s.settings (sides_of (store_of store.old) sides) }
    ensures stands { IfOk result (Maps s.settings.p store.old (room_of sides) store.new) }
{
    sides.right = bootstrap_side(s, store, sides.right.cone);
    let cone = attempt_sides(s, store, sides).ok_or(Reason::NoComposition)?;
    Ok(concluded(sides, cone))
}

// The second attempt, after the left side is bootstrapped.
#[tactic(auto, using(crate::specs::Gate::booting))]
fn second_attempt(s: ValidSettings, store: &mut Store, mut sides: Sides) -> Result<Mapped, Reason>
    requires { Ready store.old sides }
    ensures is { mapped_of store.new result ≡ second_attempt s.settings (sides_of (store_of store.old) sides) }
    ensures stands { IfOk result (Maps s.settings.p store.old (room_of sides) store.new) }
{
    sides.left = bootstrap_side(s, store, sides.left.cone);
    match attempt_sides(s, store, sides) {
        Some(cone) => Ok(concluded(sides, cone)),
        None => third_attempt(s, store, sides),
    }
}

// map_binary_gate: the larger side first, the sources within their limit, then up to three attempts.
pub fn map_binary(
    s: ValidSettings,
    store: &mut Store,
    left: Cone,
    right: Cone,
    gate: [u8; 4],
) -> Result<Mapped, Reason>
    requires { (length (store_of store.old) + 4 ≤ 672) × Stands (length (store_of store.old)) left × Stands (length (store_of store.old)) right × (all_bits gate ≡ true) }
    ensures is { mapped_of store.new result ≡ map_binary_gate s.settings (store_of store.old) (cone_of left) (cone_of right) gate }
    ensures stands { IfOk result (Maps s.settings.p store.old 4 store.new) }
{
    let sides = sides_of(store, left, right, gate);
    let sides = limit_sources(s, store, sides);
    match attempt_sides(s, store, sides) {
        Some(cone) => Ok(concluded(sides, cone)),
        None => second_attempt(s, store, sides),
    }
}

// map_gate of two wires: a constant side makes it unary. Left, right and gate are no struct: `sides_of` makes them `Sides`, and only two calls lie before.
pub fn map_with_two_wires(
    s: ValidSettings,
    store: &mut Store,
    left: Cone,
    right: Cone,
    gate: [u8; 4],
) -> Result<Mapped, Reason>
    requires { (length (store_of store.old) + 4 ≤ 672) × Stands (length (store_of store.old)) left × Stands (length (store_of store.old)) right × (all_bits gate ≡ true) }
    ensures is { mapped_of store.new result ≡ map_gate s.settings (store_of store.old) (cone_of left ∷ cone_of right ∷ []) gate }
    ensures stands { IfOk result (Maps s.settings.p store.old 4 store.new) }
{
    if let Some(v) = left.constant_value() {
        let at = 2 * v as usize;
        return map_unary(s.settings, store, right, [gate[at], gate[at + 1]]);
    }
    if let Some(v) = right.constant_value() {
        let at = v as usize;
        return map_unary(s.settings, store, left, [gate[at], gate[at + 2]]);
    }
    map_binary(s, store, left, right, gate)
}
