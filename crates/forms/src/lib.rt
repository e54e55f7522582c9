// What both texts are made of, from pieces: wires, norm limits, numbers with a sign, weights, and the lines `(in NAME)`, `(in NAME W)` and `(out NAME WIRE)`.
// It leans on the pieces (`text`) and on `rules`.
#![tactic(auto, unfolding(crate::specs::Readers::readers))]

ghost use Rattle.std.specs.Prelude.{◌≡◌, [], Some};
ghost use Rattle.rules.specs.declared.Wire.TheVariants.{Const};
ghost use Rattle.rules.specs.Form.{wire, norm, signed, weight, in_line, out_line};
ghost use Rattle.text.specs.Capped.{capped};
ghost use Rattle.text.specs.Pieces.{piece, piece_as};
ghost use Rattle.forms.specs.Forms.{given_of, output_of, cap_output};
ghost use Rattle.forms.specs.Signed.{cap_signed, negative};
ghost use Rattle.forms.specs.Weight.{written_weight};
ghost use Rattle.forms.specs.Wire.{cap_wire, node_wire};

use rules::{Limit, Wire};
use text::{read_name, read_number, read_word};

// `(n ID)`
fn read_node(s: &[u8]) -> Option<(Wire, &[u8])>
    ensures { piece result ≡ capped cap_wire (node_wire s.now) }
{
    let s = read_word(s, b"(n ")?;
    let (id, s) = read_number(s)?;
    let s = read_word(s, b")")?;
    Some((Wire::Node(id), s))
}

// `(n ID)`, `(k 0)` or `(k 1)`; an ID of 65536 stands for all that are more.
pub fn read_wire(s: &[u8]) -> Option<(Wire, &[u8])>
    ensures { piece result ≡ capped cap_wire (wire s.now) }
{
    read_node(s)
        .or_else(|| Some((Wire::Const(0), read_word(s, b"(k 0)")?)))
        .or_else(|| Some((Wire::Const(1), read_word(s, b"(k 1)")?)))
}

// `none`, or a number up to 4096.
pub fn read_norm(s: &[u8]) -> Option<(Limit, &[u8])>
    ensures { piece result ≡ norm s.now }
{
    let none = read_word(s, b"none").map(|rest| (Limit::Unlimited, rest));
    none.or_else(|| {
        let (v, rest) = read_number(s)?;
        (v <= 4096).then_some((Limit::AtMost(v), rest))
    })
}

// A minus and a number that is not 0.
fn read_negative(s: &[u8]) -> Option<(i64, &[u8])>
    ensures { piece result ≡ capped cap_signed (negative s.now) }
{
    let s = read_word(s, b"-")?;
    let (v, rest) = read_number(s)?;
    (v != 0).then_some((-(v as i64), rest))
}

// A number, or a minus and a number that is not 0; 65536 and -65536 stand for all that are further from 0.
pub fn read_signed(s: &[u8]) -> Option<(i64, &[u8])>
    ensures { piece result ≡ capped cap_signed (signed s.now) }
{
    read_negative(s).or_else(|| {
        let (v, rest) = read_number(s)?;
        Some((v as i64, rest))
    })
}

// A blank and a number from 2 to 64.
fn read_written(s: &[u8]) -> Option<(u8, &[u8])>
    ensures { piece result ≡ written_weight s.now }
{
    let s = read_word(s, b" ")?;
    let (v, rest) = read_number(s)?;
    // Not `.then_some(..)`, which would cast a larger v too.
    if !(2..=64).contains(&v) {
        return None;
    }
    Some((v as u8, rest))
}

// The weight behind an input's name: 1 where none is written, and then nothing is read.
fn read_weight(s: &[u8]) -> (u8, &[u8])
    ensures { piece (Some result) ≡ weight s.now }
{
    read_written(s).unwrap_or((1, s))
}

// An input of a circuit or a network: its name, a part of the text, and its weight.
#[derive(Clone, Copy, Default)]
pub struct Input<'a> {
    pub name: &'a [u8],
    pub weight: u8,
}

// `(in NAME)` or `(in NAME W)`, and its newline.
pub fn read_in(s: &[u8]) -> Option<(Input<'_>, &[u8])>
    ensures { piece_as given_of result ≡ in_line s.now }
{
    let s = read_word(s, b"(in ")?;
    let (name, s) = read_name(s)?;
    let (weight, s) = read_weight(s);
    let rest = read_word(s, b")\n")?;
    Some((Input { name, weight }, rest))
}

// An output: its name, a part of the text, and its wire.
#[derive(Clone, Copy)]
pub struct Output<'a> {
    pub name: &'a [u8],
    pub wire: Wire,
}

// What an `ArrayVec` holds where it has no output. By hand: `#[default]` takes only a case without fields.
impl Default for Output<'_> {
    fn default() -> Self
        ensures { output_of result ≡ record { name = []; wire = Const 0 } }
    {
        Output {
            name: &[],
            wire: Wire::Const(0),
        }
    }
}

// `(out NAME WIRE)` and its newline; an ID of 65536 stands for all that are more.
pub fn read_out(s: &[u8]) -> Option<(Output<'_>, &[u8])>
    ensures { piece_as output_of result ≡ capped cap_output (out_line s.now) }
{
    let s = read_word(s, b"(out ")?;
    let (name, s) = read_name(s)?;
    let s = read_word(s, b" ")?;
    let (wire, s) = read_wire(s)?;
    let s = read_word(s, b")\n")?;
    Some((Output { name, wire }, s))
}

// P, M and NORM of a network.
#[derive(Clone, Copy)]
pub struct Net {
    pub p: usize,
    pub m: usize,
    pub norm: Limit,
}
