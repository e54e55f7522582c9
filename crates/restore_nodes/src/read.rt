// A node, read from its cell: none where a field is outside its range. `count` is how many nodes stand before it.
ghost use Rattle.std.specs.Prelude.{◌≡◌, List, ℕ, ◌<◌, ◌≤◌, ℤ, IfSome, IsSomeAnd, IsTrue, ◌↔◌, All, length};
ghost use Rattle.rules.specs.Circuit.{Given};
ghost use Rattle.rules.specs.Network as N;
ghost use Rattle.retuning.specs.GoodState.{GoodNode, GoodTerm};
ghost use Rattle.retuning.specs.Kept.{term_bytes, node_cell};
ghost use Rattle.nodes.specs.Terms.{summand_of};
ghost use Rattle.nodes.specs.View.{lut_node, Fine};

use crate::fields::{number, read_coef};
use nodes::node::LutNode;
use nodes::terms::{Summand, Terms};
use packed::short::Short;

#[tactic(auto, using(crate::specs::Cells::input_cell), unfolding(retuning::specs::GoodState::GoodNode, theorems::specs::Weights::GoodWeight))]
fn read_input(cell: &[u8]) -> Option<LutNode>
    requires { length cell.now ≡ 36 }
    ensures sound { (count : ℕ) → IfSome result (λ n. Fine count (lut_node n)) }
    ensures complete { (count : ℕ) (g : Given) → GoodNode count (N.Input g) → cell.now ≡ node_cell (N.Input g) → IsSomeAnd result (λ n. lut_node n ≡ N.Input g) }
{
    let weight = cell[1];
    let length = cell[2] as usize;
    if weight == 0 || weight > 64 || length > 16 {
        return None;
    }
    Some(LutNode::of_input(&cell[3..3 + length], weight))
}

// A term, whose source is one of those nodes.
#[tactic(auto, using(crate::specs::Cells::term_cell))]
fn read_term(bytes: &[u8], count: usize) -> Option<Summand>
    requires { length bytes.now ≡ 3 }
    ensures sound { IfSome result (λ s. GoodTerm count (summand_of s)) }
    ensures complete { (t : N.Term) → GoodTerm count t → bytes.now ≡ term_bytes t → IsSomeAnd result (λ s. summand_of s ≡ t) }
{
    let coef = read_coef(bytes[0])?;
    let node = number(bytes[1], bytes[2]);
    if node >= count {
        return None;
    }
    Some(Summand { coef, node })
}

#[tactic(auto, using(crate::specs::Cells::sum_cell), unfolding(retuning::specs::GoodState::GoodNode))]
fn read_sum(cell: &[u8], count: usize) -> Option<LutNode>
    requires { (length cell.now ≡ 36) × (count < 672) }
    ensures sound { IfSome result (λ n. Fine count (lut_node n)) }
    ensures complete { (c : ℤ) (ts : List N.Term) → GoodNode count (N.Linear c ts) → cell.now ≡ node_cell (N.Linear c ts) → IsSomeAnd result (λ n. lut_node n ≡ N.Linear c ts) }
{
    let constant = read_coef(cell[1])?;
    let length = cell[2] as usize;
    if length > 11 {
        return None;
    }
    let mut sum = Terms {
        constant,
        terms: Short::new(),
    };
    for k in 0..length {
        let term = read_term(&cell[3 + 3 * k..6 + 3 * k], count)?;
        sum.terms.push(term);
    }
    Some(LutNode::of_terms(sum))
}

fn is_of_bits(table: &[u8]) -> bool
    ensures { IsTrue result ↔ All (λ b. b ≤ 1) table.now }
{
    table.iter().all(|&b| b <= 1)
}

// A table's source is one of those nodes.
#[tactic(auto, using(crate::specs::Cells::boot_cell, crate::specs::Made::boot_fine), unfolding(retuning::specs::GoodState::GoodNode))]
fn read_boot(cell: &[u8], count: usize) -> Option<LutNode>
    requires { (length cell.now ≡ 36) × (count < 672) }
    ensures sound { IfSome result (λ n. Fine count (lut_node n)) }
    ensures complete { (i : ℕ) (table : List ℕ) → GoodNode count (N.Bootstrap i table) → cell.now ≡ node_cell (N.Bootstrap i table) → IsSomeAnd result (λ n. lut_node n ≡ N.Bootstrap i table) }
{
    let source = number(cell[1], cell[2]);
    let length = cell[3] as usize;
    if source >= count || length > 32 {
        return None;
    }
    let table = &cell[4..4 + length];
    if !is_of_bits(table) {
        return None;
    }
    Some(LutNode::of_table(source, table))
}

pub fn read_node(cell: &[u8], count: usize) -> Option<LutNode>
    requires { (length cell.now ≡ 36) × (count < 672) }
    ensures sound { IfSome result (λ n. Fine count (lut_node n)) }
    ensures complete { (n : N.LutNode) → GoodNode count n → cell.now ≡ node_cell n → IsSomeAnd result (λ m. lut_node m ≡ n) }
{
    match cell[0] {
        0 => read_input(cell),
        1 => read_sum(cell, count),
        2 => read_boot(cell, count),
        _ => None,
    }
}
