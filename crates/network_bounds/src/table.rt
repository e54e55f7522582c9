// The table on a `boot` line.
ghost use Rattle.std.specs.Prelude.{◌≡◌};
ghost use Rattle.rules.specs.Rotation.{rotatable};
ghost use Rattle.network_text.specs.Table.{bits_of};
ghost use Rattle.network_bounds.specs.Table.{TableIs};

use network_text::TableText;

// The bits that stand in the text. An index into the table: a zip over `iter_mut` tells a proof nothing of what was written
// (docs/proof-notes.md), and beside `iter_mut().enumerate()` the bits would still be read by an index.
#[tactic(auto, using(crate::proofs::Tables::bits_done))]
pub fn table_of(text: TableText) -> [u8; 32]
    ensures { TableIs text.entry.bits.now result }
{
    let bits = text.bits;
    let mut table = [0; 32];
    for (i, byte) in bits.iter().enumerate() {
        table[i] = byte.saturating_sub(b'0');
    }
    table
}

// A rotation of period p gives the bits.
pub fn is_rotatable(p: usize, text: TableText) -> bool
    ensures { result ≡ rotatable p (bits_of text.entry) }
{
    rotation::is_fbs_table_valid(&table_of(text)[..text.bits.len()], p)
}
