// The first of 21 to 26 that a line of a network meets after the lines before it. It leans on `network_bounds` and `network_text`.
#![tactic(auto)]

mod network;

ghost use Rattle.std.specs.Prelude.{◌≡◌, Bool, ◌<◌, length};
ghost use Rattle.rules.specs.CircuitText.{listed};
ghost use Rattle.rules.specs.Network.{node_at, Input as In, Linear, Bootstrap};
ghost use Rattle.rules.specs.NetworkText.{Net, NetLine, NodeLine, OutLine, fits_table, names, sources, any_bad_source};
ghost use Rattle.rules.specs.Refusal.{number_met};
ghost use Rattle.text.specs.Judged.{lowest};
ghost use Rattle.forms.specs.Forms.{given_of, output_of};
ghost use Rattle.nodes.specs.Store.{store_of};
ghost use Rattle.nodes.specs.Terms.{terms_in, GoodTerms};
ghost use Rattle.nodes.specs.View.{lut_node};
ghost use Rattle.network_text.specs.Lines.{line_of, Within};
ghost use Rattle.network_text.specs.Table.{bits_of};
ghost use Rattle.network_judge.specs.View.{prefix_of};
ghost use Rattle.network_judge.specs.Scans.{bad_source, has_name};
ghost use Rattle.network_judge.specs.Conditions.{line_conditions};

pub use crate::network::Network;
use forms::{Input, Output};
use network_bounds::bounds::{fits, is_bit, is_sum};
use network_bounds::table::is_rotatable;
use network_text::{Line, TableText};
use nodes::node::LutNode;
use nodes::store::Store;
use nodes::terms::Terms;
use rules::{Reason, Wire};

// The node is an input with the name.
#[tactic(auto, using(theorems::specs::Names::same_bytes), unfolding(nodes::specs::View::lut_node, crate::specs::Scans::has_name))]
fn has_name(node: &LutNode, name: &[u8]) -> bool
    ensures { result ≡ has_name name.now (lut_node node.now) }
{
    match node {
        LutNode::Input { name: other, .. } => name == &other[..],
        LutNode::Linear { .. } | LutNode::Bootstrap { .. } => false,
    }
}

// One of the inputs has the name.
fn is_known_name(store: &Store, name: &[u8]) -> bool
    ensures { result ≡ listed name.now (names (store_of store.now)) }
{
    store
        .nodes
        .iter()
        .any(|stored| has_name(&stored.node, name))
}

// The `net` line, whatever it says: it stands before all others. Edition 2 has it in another form.
#[tactic(auto, using(crate::specs::Conditions::tests), unfolding(crate::specs::Conditions::conditions))]
pub fn check_net(network: &Network) -> Result<(), Reason>
    ensures { (judge : Bool) (net : Net) → number_met result ≡ lowest (line_conditions judge (prefix_of network.now) (NetLine net)) }
{
    if network.net.is_some() {
        return Err(Reason::BadLine);
    }
    Ok(())
}

// An input.
#[tactic(auto, using(crate::specs::Conditions::tests), unfolding(crate::specs::Conditions::conditions))]
fn check_in(network: &Network, input: Input) -> Result<(), Reason>
    ensures { (judge : Bool) → number_met result ≡ lowest (line_conditions judge (prefix_of network.now) (NodeLine (In (given_of input.entry)))) }
{
    let count = network.store.len();
    if network.net.is_none()
        || !network.outputs.is_empty()
        || network.inputs != count
        || count >= 32
    {
        return Err(Reason::BadLine);
    }
    if is_known_name(&network.store, input.name) {
        return Err(Reason::BadLine);
    }
    Ok(())
}

// A sum's source may not be a sum, nor no earlier node.
#[tactic(auto, unfolding(crate::specs::Scans::bad_source, rules::specs::NetworkText::unknown))]
fn is_bad_source(store: &Store, source: usize) -> bool
    ensures { result ≡ bad_source (store_of store.now) source }
{
    source >= store.len() || is_sum(store.node(source))
}

// One of a sum's sources is a bad one.
fn has_bad_source(store: &Store, t: &Terms) -> bool
    ensures { result ≡ any_bad_source (store_of store.now) (sources (terms_in t.now)) }
{
    t.terms.iter().any(|term| is_bad_source(store, term.node))
}

// A sum.
#[tactic(auto, using(crate::specs::Conditions::tests, network_bounds::specs::Bounds::good_known), unfolding(crate::specs::Conditions::conditions))]
fn check_lin(network: &Network, judge: bool, t: &Terms) -> Result<(), Reason>
    requires { GoodTerms 65537 t.now }
    ensures { number_met result ≡ lowest (line_conditions judge (prefix_of network.now) (NodeLine (Linear t.now.constant (terms_in t.now)))) }
{
    let net = network.net_with_room(1)?;
    if has_bad_source(&network.store, t) {
        return Err(Reason::BadSource);
    }
    if judge && net.norm.is_over(network.store.norm_with(t)) {
        return Err(Reason::SumOverNorm);
    }
    Ok(())
}

// The node's bounds are 0 to the table's length - 1, which is at most m.
#[tactic(auto, using(crate::specs::Conditions::tests), unfolding(rules::specs::NetworkText::fits_table))]
pub fn is_fitting(store: &Store, source: usize, m: usize, table: TableText) -> bool
    requires { source < length (store_of store.now) }
    ensures { result ≡ fits_table m (node_at (store_of store.now) source) (bits_of table.entry) }
{
    let n = table.bits.len();
    fits(store, source, n) && n <= m
}

// A table on a node.
#[tactic(auto, using(crate::specs::Conditions::tests), unfolding(crate::specs::Conditions::conditions))]
fn check_boot(network: &Network, judge: bool, source: usize, table: TableText) -> Result<(), Reason>
    ensures { number_met result ≡ lowest (line_conditions judge (prefix_of network.now) (NodeLine (Bootstrap source (bits_of table.entry)))) }
{
    let net = network.net_with_room(1)?;
    if source >= network.store.len() {
        return Err(Reason::BadSource);
    }
    if judge && !is_fitting(&network.store, source, net.m, table) {
        return Err(Reason::BadLength);
    }
    if judge && !is_rotatable(net.p, table) {
        return Err(Reason::NoRotation);
    }
    Ok(())
}

// An output.
#[tactic(auto, using(crate::specs::Conditions::tests), unfolding(crate::specs::Conditions::conditions))]
fn check_out(network: &Network, judge: bool, output: Output) -> Result<(), Reason>
    ensures { number_met result ≡ lowest (line_conditions judge (prefix_of network.now) (OutLine (output_of output.entry))) }
{
    if network.net.is_none() || network.outputs.len() >= 32 {
        return Err(Reason::BadLine);
    }
    let Wire::Node(id) = output.wire else {
        return Ok(());
    };
    if id >= network.store.len() {
        return Err(Reason::BadSource);
    }
    if judge && !is_bit(&network.store, id) {
        return Err(Reason::NoBit);
    }
    Ok(())
}

// A line that is good on its own. `judge`: 23 to 26 as well, which a run does not ask of its network but admission does.
// A bool, as the definitions have it: it adds conditions and chooses no step.
#[tactic(auto, using(crate::specs::Conditions::tests), unfolding(crate::specs::Conditions::conditions))]
pub fn check_line(network: &Network, judge: bool, line: &Line) -> Result<(), Reason>
    requires { Within line.now }
    ensures { number_met result ≡ lowest (line_conditions judge (prefix_of network.now) (line_of line.now)) }
{
    match line {
        Line::Net(_) => check_net(network),
        Line::In(input) => check_in(network, *input),
        Line::Lin(terms) => check_lin(network, judge, terms),
        Line::Boot { source, table } => check_boot(network, judge, *source, *table),
        Line::Out(output) => check_out(network, judge, *output),
    }
}
