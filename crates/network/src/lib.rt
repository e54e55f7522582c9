// A network's text read once: judged line by line (21 and 22, or 21 to 26), its nodes put into a node store.
// It leans on `network_judge`, one line's reader (`network_text`) and the store (`nodes`).
#![tactic(auto)]

ghost use Rattle.std.specs.Prelude.{◌≡◌, ◌<◌, IfOk, Some, length};
ghost use Rattle.laws.specs.Test.{if◌then◌otherwise◌};
ghost use Rattle.rules.specs.Network.{Input as In, Linear, Bootstrap};
ghost use Rattle.rules.specs.NetworkText.{network_ended, no_network, read_network, read_admitted};
ghost use Rattle.rules.specs.Rotation.{centre_of};
ghost use Rattle.forms.specs.Forms.{GoodGiven};
ghost use Rattle.nodes.specs.Store.{store_of, Adds};
ghost use Rattle.nodes.specs.Terms.{terms_in, GoodTerms};
ghost use Rattle.nodes.specs.View.{given};
ghost use Rattle.network_text.specs.Table.{bits_of};
ghost use Rattle.network_judge.specs.View.{prefix_of};
ghost use Rattle.network.specs.View.{reading_of};
ghost use Rattle.network.specs.Reading.{LineReader, Takes, plain};
ghost use Rattle.network.specs.Put.{Ready, Follows};

use forms::Net;
use network_bounds::table::table_of;
pub use network_judge::Network;
use network_judge::check_line;
use network_text::{Line, TableText, read_line};
use nodes::node::LutNode;
use nodes::store::Store;
use nodes::terms::Terms;
use rules::{Reason, Refusal};
use text::split_line;

// A boot with this table, of a network with the period p.
#[tactic(auto, using(crate::specs::Put::fine))]
pub fn put_boot(store: &mut Store, p: usize, source: usize, text: TableText)
    requires { (length (store_of store.old) < 672) × (source < length (store_of store.old)) }
    ensures { Adds (centre_of p (bits_of text.entry)) (Bootstrap source (bits_of text.entry)) store.old store.new }
{
    let table = table_of(text);
    let table = &table[..text.bits.len()];
    store.push(
        LutNode::of_table(source, table),
        rotation::centre_of(table, p),
    );
}

// A sum.
#[tactic(auto, using(crate::specs::Put::fine))]
fn put_sum(store: &mut Store, terms: Terms)
    requires { (length (store_of store.old) < 672) × GoodTerms (length (store_of store.old)) terms }
    ensures { Adds 0 (Linear terms.constant (terms_in terms)) store.old store.new }
{
    store.push(LutNode::of_terms(terms), 0);
}

// An input.
#[tactic(auto, using(crate::specs::Put::fine))]
fn put_in(store: &mut Store, name: &[u8], weight: u8)
    requires { (length (store_of store.old) < 672) × GoodGiven (given name.now weight) }
    ensures { Adds 0 (In (given name.now weight)) store.old store.new }
{
    store.push(LutNode::of_input(name, weight), 0);
}

// A line for which there is room, put behind those before it; a table stands behind the `net` line.
fn put_line<'a>(network: &mut Network<'a>, line: &Line<'a>)
    requires { Ready network.old line.now }
    ensures { Follows network.old line.now network.new }
{
    match line {
        Line::Net(net) => network.net = Some(*net),
        Line::In(input) => {
            put_in(&mut network.store, input.name, input.weight);
            network.inputs += 1;
        }
        Line::Lin(terms) => put_sum(&mut network.store, *terms),
        Line::Boot { source, table } => {
            let net = network.net.unwrap();
            put_boot(&mut network.store, net.p, *source, *table);
        }
        Line::Out(output) => network.outputs.push(*output),
    }
}

// A line judged by those before it, and put behind them.
#[tactic(auto, using(crate::specs::Added::taking), unfolding(crate::specs::Reading::plain))]
pub fn take_line<'a>(network: &mut Network<'a>, judge: bool, l: &'a [u8]) -> Result<(), Reason>
    ensures { Takes (plain judge) network.old l.now result network.new }
{
    let Some(line) = read_line(l) else {
        return Err(Reason::BadLine);
    };
    check_line(network, judge, &line)?;
    put_line(network, &line);
    Ok(())
}

// The text ends before this line.
#[tactic(auto, unfolding(rules::specs::NetworkText::network_ended, rules::specs::NetworkText::with_net))]
fn finish(network: &Network<'_>, line: usize) -> Result<Net, Refusal>
    ensures is { reading_of result network.now ≡ network_ended line (prefix_of network.now) }
    ensures net { IfOk result (λ net. network.now.net ≡ Some net) }
{
    network.net.ok_or(Refusal {
        reason: Reason::BadLine,
        line,
    })
}

// The lines of a text in turn, each taken by `take`. Not a `for` over `split_inclusive` with a counter beside it (tried): the invariant has no name
// for the closure that finds the newlines, so it would have to carry that what the iterator gives are the definition's lines. An iterator of our own over
// (number, line) would have to hand on, beside its items, the number of the line behind the last: `finish` wants it.
#[tactic(auto, using(text::specs::FirstLine::after_shorter))]
pub fn take_lines<'a, F: Fn(&mut Network<'a>, &'a [u8]) -> Result<(), Reason>>(
    text: &'a [u8],
    network: &mut Network<'a>,
    take: F,
) -> Result<Net, Refusal>
    requires callable { F.IsAlwaysCallable take }
    ensures is { (r : LineReader) → ((before : _) (l : _) (x : _) (after : _) → F.post take before l x after → Takes r before.now l.now x after.now) → reading_of result network.new ≡ r.from 1 no_network text.now }
    ensures net { IfOk result (λ net. network.new.net ≡ Some net) }
{
    network.clear();
    let mut rest = text;
    let mut line = 1;
    while !rest.is_empty() {
        let (l, next) = split_line(rest);
        // no `map_err(..)?` (tried): that `take` gave Ok then stands in `map_err`'s cases alone, and the loop's next turn (`loop-rest-preserved`) has to be
        // answered by hand; this pattern says it
        if let Err(reason) = take(network, l) {
            return Err(Refusal { reason, line });
        }
        rest = next;
        line += 1;
    }
    finish(network, line)
}

// The lines of a plain text. `judge`: 23 to 26 as well.
fn read_lines<'a>(text: &'a [u8], judge: bool, network: &mut Network<'a>) -> Result<Net, Refusal>
    ensures is { reading_of result network.new ≡ (if judge then read_admitted text.now otherwise read_network text.now) }
    ensures net { IfOk result (λ net. network.new.net ≡ Some net) }
{
    take_lines(text, network, |network, l| take_line(network, judge, l))
}

// The network that a text describes, as a run reads it: 21 and 22. It takes the place of the lent one, so that no nodes are copied.
// The answer is the `net` line alone and no struct with the network in it: who calls has lent the network, and has it.
pub fn read<'a>(text: &'a [u8], network: &mut Network<'a>) -> Result<Net, Refusal>
    ensures is { reading_of result network.new ≡ read_network text.now }
    ensures net { IfOk result (λ net. network.new.net ≡ Some net) }
{
    read_lines(text, false, network)
}

// As admission reads it: 23 to 26 as well.
pub fn read_admitted<'a>(text: &'a [u8], network: &mut Network<'a>) -> Result<Net, Refusal>
    ensures is { reading_of result network.new ≡ read_admitted text.now }
    ensures net { IfOk result (λ net. network.new.net ≡ Some net) }
{
    read_lines(text, true, network)
}
