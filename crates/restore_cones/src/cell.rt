// A cone read from its cell.
ghost use Rattle.std.specs.Prelude.{◌≡◌, ◌+◌, ◌*◌, ◌≤◌, length, drop, IfSome, IsSomeAnd};
ghost use Rattle.rules.specs.Cone as rules;
ghost use Rattle.retuning.specs.Kept.{cone_cell};
ghost use Rattle.retuning.specs.GoodState.{GoodCone};
ghost use Rattle.cone.specs.View.{cone_of};
ghost use Rattle.cone.specs.Sources.{Stands};

use crate::entries::read_entries;
use crate::sources::{are_sources, read_coefficients, read_sources};
use cone::Cone;
use linear::linear_span;

// The known entries, and what follows them: they stand behind n sources and n coefficients.
#[tactic(auto, using(laws::specs::Tail::tail_part))]
fn entries_of(cell: &[u8], n: usize) -> &[u8]
    requires { 1 + 3 * n ≤ length cell.now }
    ensures { result.now ≡ drop (1 + 3 * n) cell.now }
{
    &cell[1 + 3 * n..]
}

// The cone of a cell, over so many nodes; none where a field is outside its range, or rows of one value have two truths.
pub fn read_cone(cell: &[u8], nodes: usize) -> Option<Cone>
    requires long { length cell.now ≡ 66 }
    requires near { nodes ≤ 672 }
    ensures sound { IfSome result (Stands nodes) }
    ensures complete { (c : rules.Cone) → GoodCone nodes c → cell.now ≡ cone_cell c → IsSomeAnd result (λ k. cone_of k ≡ c) }
{
    let n = usize::from(cell[0]);
    if n > 11 {
        return None;
    }
    let support = read_sources(cell);
    let coefs = read_coefficients(cell, 1 + 2 * n);
    if !are_sources(&support[..n], nodes) || linear_span(&coefs[..n]) > 32 {
        return None;
    }
    let known = read_entries(entries_of(cell, n), &coefs[..n])?;
    Some(Cone {
        n,
        support,
        coefs,
        known,
    })
}
