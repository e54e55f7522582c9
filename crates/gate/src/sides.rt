// The two sides of a binary gate: which comes first, how many sources they have, and their bootstraps.
ghost use Rattle.std.specs.Prelude.{◌≡◌, List, ◌+◌, ◌≤◌, length};
ghost use Rattle.rules.specs.Network.{LutNode};
ghost use Rattle.rules.specs.Mapper.{sides, larger_first, over_limit as is_over, limit_second, limit_sources};
ghost use Rattle.cone.specs.View.{cone_of};
ghost use Rattle.cone.specs.Order.{sides_of};
ghost use Rattle.cone.specs.Sources.{Stands};
ghost use Rattle.nodes.specs.Store.{store_of};
ghost use Rattle.gate.specs.Gate.{room, Ready, Booted, Steps, Same};

use bootstrap::boot::bootstrap_cone;
use cone::Cone;
use cone::order::{Side, Sides, cone_order_key, is_less, switch_inputs};
use cone::settings::ValidSettings;
use nodes::store::Store;
use rules::Settings;
use support::union_support_size;

// Both sides of a gate, the larger one left.
pub fn sides_of(store: &Store, left: Cone, right: Cone, gate: [u8; 4]) -> Sides
    requires { Stands (length (store_of store.now)) left × Stands (length (store_of store.now)) right }
    ensures is { sides_of (store_of store.now) result ≡ larger_first (sides (store_of store.now) (cone_of left) (cone_of right) gate) }
    ensures same { Same left right gate result }
{
    let sides = Sides {
        left: Side {
            cone: left,
            booted: false,
        },
        right: Side {
            cone: right,
            booted: false,
        },
        gate,
        switched: false,
    };
    if is_less(cone_order_key(store, left), cone_order_key(store, right)) {
        switch_inputs(sides)
    } else {
        sides
    }
}

// Whether the two sides have more sources together than T.
#[tactic(auto, unfolding(rules::specs::Mapper::over_limit, cone::specs::Order::sides_of, cone::specs::Order::side_of))]
fn over_limit(s: Settings, sides: Sides) -> bool
    ensures { (nodes : List LutNode) → result ≡ is_over s (sides_of nodes sides) }
{
    s.t < union_support_size(sides.left.cone.sources(), sides.right.cone.sources())
}

// A side with its cone bootstrapped.
pub fn bootstrap_side(s: ValidSettings, store: &mut Store, cone: Cone) -> Side
    requires { Stands (length (store_of store.old)) cone × (length (store_of store.old) + room (cone_of cone) ≤ 672) }
    ensures { Booted s.settings store.old cone store.new result }
{
    Side {
        cone: bootstrap_cone(s, store, cone),
        booted: true,
    }
}

// The left side bootstrapped if the sources are too many.
#[tactic(auto, using(crate::specs::Gate::booting))]
fn limit_second(s: ValidSettings, store: &mut Store, mut sides: Sides) -> Sides
    requires { Ready store.old sides }
    ensures is { sides_of (store_of store.new) result ≡ limit_second s.settings (sides_of (store_of store.old) sides) }
    ensures steps { Steps s.settings.p store.old sides store.new result }
{
    if over_limit(s.settings, sides) {
        sides.left = bootstrap_side(s, store, sides.left.cone);
    }
    sides
}

// The inputs limit: the left side bootstrapped, and then the other one too if they are still too many.
#[tactic(auto, using(crate::specs::Gate::booting))]
pub fn limit_sources(s: ValidSettings, store: &mut Store, mut sides: Sides) -> Sides
    requires { Ready store.old sides }
    ensures is { sides_of (store_of store.new) result ≡ limit_sources s.settings (sides_of (store_of store.old) sides) }
    ensures steps { Steps s.settings.p store.old sides store.new result }
{
    if !over_limit(s.settings, sides) {
        return sides;
    }
    sides.left = bootstrap_side(s, store, sides.left.cone);
    limit_second(s, store, switch_inputs(sides))
}
