// Which of two cones comes first, and the two sides of a gate.
ghost use Rattle.std.specs.Prelude.{◌≡◌, List, length};
ghost use Rattle.rules.specs.Network.{LutNode};
ghost use Rattle.rules.specs.Cone.{less, cone_order_key};
ghost use Rattle.rules.specs.Mapper.{switch_inputs};
ghost use Rattle.nodes.specs.Store.{store_of};
ghost use Rattle.cone.specs.View.{cone_of};
ghost use Rattle.cone.specs.Sources.{Below};
ghost use Rattle.cone.specs.Order.{key_of, sides_of};

use crate::Cone;
use nodes::store::Store;

// Span, then norm.
#[derive(Clone, Copy, PartialEq, Eq, PartialOrd, Ord)]
pub struct OrderKey {
    pub span: usize,
    pub norm: u64,
}

#[tactic(auto, unfolding(crate::specs::Order::key_of, rules::specs::Cone::cone_order_key))]
pub fn cone_order_key(store: &Store, cone: Cone) -> OrderKey
    requires { Below (length (store_of store.now)) (cone_of cone) }
    ensures { key_of result ≡ cone_order_key (store_of store.now) (cone_of cone) }
{
    OrderKey {
        span: cone.span(),
        norm: cone.norm2(store),
    }
}

#[tactic(auto, unfolding(crate::specs::Order::key_of, rules::specs::Cone::less))]
pub fn is_less(a: OrderKey, b: OrderKey) -> bool
    ensures { result ≡ less (key_of a) (key_of b) }
{
    a < b
}

// One side of a binary gate: its cone, and whether it was bootstrapped here.
#[derive(Clone, Copy)]
pub struct Side {
    pub cone: Cone,
    pub booted: bool,
}

// Both sides, the gate's answers for them, and whether they have changed places.
#[derive(Clone, Copy)]
pub struct Sides {
    pub left: Side,
    pub right: Side,
    pub gate: [u8; 4],
    pub switched: bool,
}

// switch_inputs: the gate's answers 1 and 2 are exchanged too.
#[tactic(auto, unfolding(crate::specs::Order::sides_of, rules::specs::Mapper::switch_inputs))]
pub fn switch_inputs(sides: Sides) -> Sides
    ensures is { (nodes : List LutNode) → sides_of nodes result ≡ switch_inputs (sides_of nodes sides) }
    ensures places { (result.left ≡ sides.right) × (result.right ≡ sides.left) }
{
    Sides {
        left: sides.right,
        right: sides.left,
        gate: [sides.gate[0], sides.gate[2], sides.gate[1], sides.gate[3]],
        switched: !sides.switched,
    }
}
