// The cones that are kept in bytes, read back, each field of a cell tested (retuning's `cone_cell`).
// It leans on `linear`, `support`, `known_rows`, `cone` and the kit's `arrayvec`.
#![tactic(auto)]

mod cell;
mod entries;
mod sources;

ghost use Rattle.std.specs.Prelude.{◌≡◌, true, List, ℕ, ◌≤◌, ◌<◌, map, length, get_or, All};
ghost use mathlib.Core.List.{flat_map};
ghost use Rattle.rules.specs.Cone as rules;
ghost use Rattle.rules.specs.Cone.{constant};
ghost use Rattle.retuning.specs.Kept.{cone_cell, padded};
ghost use Rattle.retuning.specs.GoodState.{GoodCone};
ghost use Rattle.cone.specs.View.{cone_of};
ghost use Rattle.cone.specs.Sources.{Stands};

use crate::cell::read_cone;
use arrayvec::ArrayVec;
use cone::Cone;

// The cones that these bytes hold, so many, in the place of what the lent list held; false where a field is outside its range or rows of one value have
// two truths. `nodes` is how many nodes there are.
pub fn restore_cones(
    bytes: &[u8],
    count: usize,
    nodes: usize,
    wires: &mut ArrayVec<Cone, 128>,
) -> bool
    requires long { length bytes.now ≡ 8448 }
    requires few { (count ≤ 128) × (nodes ≤ 672) }
    ensures sound { result ≡ true → (length wires.new.items ≡ count) × All (Stands nodes) wires.new.items }
    ensures complete { (cones : List rules.Cone) → length cones ≡ count → ((i : ℕ) → i < count → GoodCone nodes (get_or cones i (constant 0))) → bytes.now ≡ padded 8448 (flat_map cone_cell cones) → (result ≡ true) × (map cone_of wires.new.items ≡ cones) }
{
    wires.clear();
    for i in 0..count {
        let Some(cone) = read_cone(&bytes[66 * i..66 * i + 66], nodes) else {
            return false;
        };
        wires.push(cone);
    }
    true
}
