// A table as it stands in the text.
ghost use Rattle.std.specs.Prelude.{◌≤◌, T, length};
ghost use Rattle.rules.specs.Form.{bits_from};
ghost use Rattle.rules.specs.Runs.{all_bits};

use text::read_bits;

// 1 to 32 bits, each a digit 0 or 1.
#[derive(Clone, Copy)]
pub struct TableText<'a> {
    pub bits: &'a [u8],
    pub ghost some: { 1 ≤ length bits.now },
    pub ghost short: { length bits.now ≤ 32 },
    pub ghost digits: { T (all_bits (bits_from bits.now)) },
}

impl<'a> TableText<'a> {
    ghost use Rattle.std.specs.Prelude.{◌≡◌};
    ghost use Rattle.text.specs.Pieces.{piece_as};
    ghost use Rattle.network_text.specs.Table.{bits_of, short_bits};

    // The bits at the front, if they are a table's.
    #[tactic(auto, using(crate::proofs::Bits::table_bits, theorems::specs::Pieces::from_length), unfolding(crate::specs::Table::short_bits, rules::specs::Form::onward))]
    pub fn read(s: &'a [u8]) -> Option<(TableText<'a>, &'a [u8])>
        ensures { piece_as bits_of result ≡ short_bits s.now }
    {
        let (bits, s) = read_bits(s)?;
        if bits.len() > 32 {
            return None;
        }
        Some((TableText { bits }, s))
    }
}
