// One line of edition 2. What is wrong on its own (21) counts as no form: P or M outside its limits, no table, a table of over 32 bits.
// A node's number is kept up to 65536. `in`, `lin` and `out` are the plain text's.
ghost use Rattle.many_text.specs.Lines.{LineRead};

use crate::tables::Tables;
use forms::Net;
use network_text::read_net;
use text::{read_number, read_word};

// What a line says: P, M and NORM; a node and its tables; or that the plain text's reader is to read it.
#[derive(Clone, Copy)]
pub enum Line<'a> {
    Net(Net),
    Many { source: usize, tables: Tables<'a> },
    Plain,
}

// What a line says, if it is good on its own. `Plain` is any line that does not begin as one of edition 2's or as `net` or `boot`, good or not.
#[tactic(auto, using(crate::proofs::LineForms::lines2))]
pub fn read_line(l: &[u8]) -> Option<Line<'_>>
    ensures { LineRead l.now result }
{
    if let Some(s) = read_word(l, b"(net2 ") {
        let (net, rest) = read_net(s)?;
        if !rest.is_empty() {
            return None;
        }
        return Some(Line::Net(net));
    }
    if let Some(s) = read_word(l, b"(many ") {
        let (source, s) = read_number(s)?;
        let (tables, rest) = Tables::read(s);
        let rest = read_word(rest, b")\n")?;
        if tables.left == 0 || !rest.is_empty() {
            return None;
        }
        return Some(Line::Many { source, tables });
    }
    if read_word(l, b"(net ").is_some() || read_word(l, b"(boot ").is_some() {
        return None;
    }
    Some(Line::Plain)
}
