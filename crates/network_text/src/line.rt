// One line of a network's text. What is wrong on its own (21) counts as no form: P or M outside its limits, a sum that is no good one,
// a table of over 32 bits. A node's number is kept up to 65536.
ghost use Rattle.std.specs.Prelude.{◌≡◌};
ghost use Rattle.text.specs.Pieces.{piece_as};
ghost use Rattle.network_text.specs.Lines.{net_line_of, net_rest, boot_rest, net_form, node_form, line_form, good_piece, IsForm, LineRead};

use crate::sum::read_sum;
use crate::table::TableText;
use forms::{Input, Net, Output, read_in, read_norm, read_out};
use nodes::terms::Terms;
use text::{read_number, read_word};

// What a line says: P, M and NORM; an input; a sum; a table and its node; an output.
#[derive(Clone, Copy)]
pub enum Line<'a> {
    Net(Net),
    In(Input<'a>),
    Lin(Terms),
    Boot { source: usize, table: TableText<'a> },
    Out(Output<'a>),
}

// What stands behind `(net `: P, M and NORM, with P and M within their limits.
pub fn read_net(s: &[u8]) -> Option<(Net, &[u8])>
    ensures { piece_as net_line_of result ≡ good_piece (net_form (net_rest s.now)) }
{
    let (p, s) = read_number(s)?;
    let s = read_word(s, b" ")?;
    let (m, s) = read_number(s)?;
    let s = read_word(s, b" ")?;
    let (norm, s) = read_norm(s)?;
    let s = read_word(s, b")\n")?;
    if !rotation::table_limits(p, m) {
        return None;
    }
    Some((Net { p, m, norm }, s))
}

// What stands behind `(boot `: the node and its table.
#[tactic(auto, using(crate::proofs::Boot::tables), unfolding(crate::specs::Readers::readers))]
fn read_boot(s: &[u8]) -> Option<(Line<'_>, &[u8])>
    ensures { IsForm (node_form (boot_rest s.now)) result }
{
    let (source, s) = read_number(s)?;
    let s = read_word(s, b" ")?;
    let (table, s) = TableText::read(s)?;
    let s = read_word(s, b")\n")?;
    Some((Line::Boot { source, table }, s))
}

// A line at the front of some bytes. Not a chain of `.or_else`: the check does not cover `.map` to a form that lends its text.
#[tactic(auto, using(crate::proofs::LineForms::forms, forms::specs::Forms::in_good, forms::specs::Forms::out_named), unfolding(crate::specs::Readers::readers))]
fn read_form(s: &[u8]) -> Option<(Line<'_>, &[u8])>
    ensures { IsForm (line_form s.now) result }
{
    if let Some(s) = read_word(s, b"(net ") {
        let (net, rest) = read_net(s)?;
        return Some((Line::Net(net), rest));
    }
    if let Some((input, rest)) = read_in(s) {
        return Some((Line::In(input), rest));
    }
    if let Some(s) = read_word(s, b"(lin ") {
        let Some((terms, rest)) = read_sum(s) else {
            return None;
        };
        return Some((Line::Lin(terms), rest));
    }
    if let Some(s) = read_word(s, b"(boot ") {
        return read_boot(s);
    }
    let (output, rest) = read_out(s)?;
    Some((Line::Out(output), rest))
}

// What a line says, if it is good on its own.
#[tactic(auto, using(crate::proofs::LineForms::whole_line), unfolding(crate::specs::Readers::readers))]
pub fn read_line(l: &[u8]) -> Option<Line<'_>>
    ensures { LineRead l.now result }
{
    let Some((line, rest)) = read_form(l) else {
        return None;
    };
    if !rest.is_empty() {
        return None;
    }
    Some(line)
}
