// A network's text of either edition (document 02, S-11), told by how it begins, read as admission reads it. It leans on the plain text's
// reader (`network`), on one line of edition 2 (`many_text`) and on the conditions of its `many` lines (`many_judge`).
#![tactic(auto)]

ghost use Rattle.std.specs.Prelude.{◌≡◌, true, ℕ, OnOk, IfOk, Some};
ghost use Rattle.std.proofs.Math.Option.{some};
ghost use Rattle.rules.specs.Builder.{table_limits};
ghost use Rattle.rules.specs.NetworkText.{NetLine, with_network_line};
ghost use Rattle.text.specs.Judged.{lowest};
ghost use Rattle.network_text.specs.Lines.{net_of};
ghost use Rattle.rules.specs.Edition2.{Plain, is_edition2, read_admitted2, read_either};
ghost use Rattle.rules.specs.Refusal.{number_met};
ghost use Rattle.many_text.specs.Lines.{refusal2};
ghost use Rattle.many_text.specs.View.{tables_left};
ghost use Rattle.many_judge.specs.Conditions.{many_conditions};
ghost use Rattle.network_judge.specs.View.{prefix_of};
ghost use Rattle.network.specs.Put.{period};
ghost use Rattle.network.specs.View.{reading_of};
ghost use Rattle.edition.specs.Put.{TablesReady, with_tables};
ghost use Rattle.network.specs.Reading.{Takes};
ghost use Rattle.edition.specs.Reading.{second};

use forms::Net;
use many_judge::check_many;
use many_text::{Line, Tables, read_line};
use network::{put_boot, take_lines};
use network_judge::{Network, check_net};
use rules::{Reason, Refusal};
use text::read_word;

// Edition 2 begins `(net2 `.
#[tactic(auto, unfolding(rules::specs::Edition2::is_edition2))]
pub fn is_edition_2(text: &[u8]) -> bool
    ensures { result ≡ is_edition2 text.now }
{
    read_word(text, b"(net2 ").is_some()
}

// Each of the tables a boot on this node, of a network with the period p.
#[tactic(auto, using(crate::specs::Put::putting))]
fn put_tables(network: &mut Network, p: usize, source: usize, tables: Tables)
    requires period { p ≡ period network.old.net }
    requires ready { TablesReady network.old source (tables_left tables) }
    ensures { prefix_of network.new ≡ with_tables source (tables_left tables.entry) (prefix_of network.old) }
{
    for table in tables {
        put_boot(&mut network.store, p, source, table.text);
    }
}

// `net2`, with P and M within their limits, is taken as the plain text's `net` line is.
// It is put here: `network::take_line` reads the plain text's lines, and its proof knows of a line only what was read from those bytes.
#[tactic(auto, using(crate::specs::Put::net_number, crate::specs::Put::net_free, network::specs::Added::holds_net), unfolding(rules::specs::NetworkText::with_network_line))]
fn take_net(network: &mut Network, net: Net) -> Result<(), Reason>
    requires { table_limits net.p net.m ≡ true }
    ensures number { number_met result ≡ refusal2 (prefix_of network.old) (some (Plain (NetLine (net_of net)))) }
    ensures added { (i : ℕ) → OnOk result (prefix_of network.new ≡ with_network_line i (prefix_of network.old) (NetLine (net_of net))) }
{
    check_net(network)?;
    network.net = Some(net);
    Ok(())
}

// `many`: a node and its tables.
#[tactic(auto, using(crate::specs::Put::tables_ready, network::specs::Put::period_is))]
fn take_many(network: &mut Network, source: usize, tables: Tables) -> Result<(), Reason>
    ensures number { number_met result ≡ lowest (many_conditions (prefix_of network.old) source (tables_left tables.entry)) }
    ensures put { OnOk result (prefix_of network.new ≡ with_tables source (tables_left tables.entry) (prefix_of network.old)) }
{
    let net = check_many(network, source, tables)?;
    put_tables(network, net.p, source, tables);
    Ok(())
}

// A line judged by those before it, and put behind them.
#[tactic(auto, using(crate::specs::Put::taking), unfolding(crate::specs::Reading::second, network::specs::Reading::plain))]
fn take_line<'a>(network: &mut Network<'a>, l: &'a [u8]) -> Result<(), Reason>
    ensures { Takes second network.old l.now result network.new }
{
    match read_line(l) {
        None => Err(Reason::BadLine),
        Some(Line::Net(net)) => take_net(network, net),
        Some(Line::Many { source, tables }) => take_many(network, source, tables),
        Some(Line::Plain) => network::take_line(network, true, l),
    }
}

// As `network::read_admitted`, of edition 2.
fn read_edition_2<'a>(text: &'a [u8], network: &mut Network<'a>) -> Result<Net, Refusal>
    ensures is { reading_of result network.new ≡ read_admitted2 text.now }
    ensures net { IfOk result (λ net. network.new.net ≡ Some net) }
{
    take_lines(text, network, take_line)
}

// The network that a text describes, put in the place of the lent one; every number of admission is judged.
// `convert` asks `is_edition_2` of the same text again, as its definition does.
#[tactic(auto, unfolding(rules::specs::Edition2::read_either))]
pub fn read<'a>(text: &'a [u8], network: &mut Network<'a>) -> Result<Net, Refusal>
    ensures is { reading_of result network.new ≡ read_either text.now }
    ensures net { IfOk result (λ net. network.new.net ≡ Some net) }
{
    if is_edition_2(text) {
        return read_edition_2(text, network);
    }
    network::read_admitted(text, network)
}
