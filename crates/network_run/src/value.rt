// The value of a node, from those of the nodes before it.
ghost use Rattle.std.specs.Prelude.{◌≡◌, false, ◌≤◌, pos, nat_abs, length, get_or};
ghost use Rattle.rules.specs.Network.{is_linear, sum_from};
ghost use Rattle.rules.specs.Store.{terms_of};
ghost use Rattle.nodes.specs.View.{Fine, FineTerms, lut_node, terms_seen};
ghost use Rattle.network_run.specs.Value.{value_of, value_at, looked, SmallValue, SmallSources};

use nodes::node::{LutNode, Term};

// An input's bit, 0 where there is none.
fn bit_at(bits: &[u8], i: usize) -> i64
    ensures { (result ≡ pos (get_or bits.now i 0)) × (nat_abs result ≤ 255) }
{
    bits.get(i).copied().unwrap_or(0) as i64
}

// CONST plus each COEF times its node.
#[tactic(auto, using(crate::specs::Value::summing))]
fn sum_of(constant: i8, terms: &[Term], values: &[i64]) -> i64
    requires near { nat_abs constant ≤ 31 }
    requires few { length terms.now ≤ 11 }
    requires fine { FineTerms (length values.now) (terms_seen terms.now) }
    requires small { SmallSources values.now (terms_seen terms.now) }
    ensures { result ≡ sum_from values.now constant (terms_seen terms.now) }
{
    let mut sum = constant as i64;
    for term in terms {
        sum += term.coef as i64 * values[term.node.get()];
    }
    sum
}

// What a boot of a table that a rotation gives is at v: the table read off. None: it breaks off.
#[tactic(auto, using(crate::specs::Value::looking))]
fn look_up(table: &[u8], v: i64) -> Option<i64>
    ensures { (value_of result ≡ looked table.now v) × SmallValue result }
{
    if v < 0 {
        return None;
    }
    let bit = *table.get(v as usize)?;
    Some(bit as i64)
}

// The value of the node behind these, where a rotation gives its table. None: its boot breaks off.
#[tactic(auto, unfolding(crate::specs::Value::value_at, nodes::specs::View::lut_node, nodes::specs::View::Fine, rules::specs::Network::is_linear, rules::specs::Store::terms_of))]
pub fn node_value(node: &LutNode, bits: &[u8], values: &[i64]) -> Option<i64>
    requires fine { Fine (length values.now) (lut_node node.now) }
    requires small { SmallSources values.now (terms_of (lut_node node.now)) }
    ensures is { value_of result ≡ value_at bits.now values.now (lut_node node.now) }
    ensures small { is_linear (lut_node node.now) ≡ false → SmallValue result }
{
    match node {
        LutNode::Input { .. } => Some(bit_at(bits, values.len())),
        LutNode::Linear { constant, terms } => Some(sum_of(*constant, terms, values)),
        LutNode::Bootstrap { source, table } => look_up(table, values[source.get()]),
    }
}
