// `(BITS CENTRE)` on a `many` line.
ghost use Rattle.std.specs.Prelude.{◌≡◌};
ghost use Rattle.rules.specs.Edition2.{centre_digit};
ghost use Rattle.text.specs.Pieces.{piece, piece_as};
ghost use Rattle.many_text.specs.View.{table_of};
ghost use Rattle.many_text.specs.Tables.{good_table};

use network_text::TableText;
use text::read_word;

// A table as it stands in the text, and its centre.
#[derive(Clone, Copy)]
pub struct Table<'a> {
    pub text: TableText<'a>,
    pub centre: u8,
}

// 0, 1 or 2.
fn read_centre(s: &[u8]) -> Option<(u8, &[u8])>
    ensures { piece result ≡ centre_digit s.now }
{
    let zero = read_word(s, b"0").map(|rest| (0, rest));
    zero.or_else(|| Some((1, read_word(s, b"1")?)))
        .or_else(|| Some((2, read_word(s, b"2")?)))
}

// A blank and `(BITS CENTRE)`, if it has at most 32 bits.
pub fn read_table(s: &[u8]) -> Option<(Table<'_>, &[u8])>
    ensures { piece_as table_of result ≡ good_table s.now }
{
    let s = read_word(s, b" ")?;
    let s = read_word(s, b"(")?;
    let (text, s) = TableText::read(s)?;
    let s = read_word(s, b" ")?;
    let (centre, s) = read_centre(s)?;
    let s = read_word(s, b")")?;
    Some((Table { text, centre }, s))
}
