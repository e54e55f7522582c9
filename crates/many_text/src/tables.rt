// The tables of a `many` line.
ghost use Rattle.std.specs.Prelude.{◌≡◌, length};
ghost use Rattle.many_text.specs.Tables.{tables_in};

use crate::table::{Table, read_table};

// The tables at the front of some bytes, and how many they are. They are not kept but read again, one by one.
#[derive(Clone, Copy)]
pub struct Tables<'a> {
    rest: &'a [u8],
    pub left: usize,
    pub ghost counted: { left ≡ length (tables_in rest.now) },
}

impl<'a> Tables<'a> {
    ghost use Rattle.std.specs.Prelude.{◌≡◌};
    ghost use Rattle.many_text.specs.Tables.{tables_in, rest_in};
    ghost use Rattle.many_text.specs.View.{tables_left};

    // The tables at the front, and what stands behind them. They are counted by a `while let`: a `Tables` carries its count as a ghost fact, so none can be made to count them.
    #[tactic(auto, using(crate::proofs::Walk::one_by_one))]
    pub fn read(s: &'a [u8]) -> (Tables<'a>, &'a [u8])
        ensures { (tables_left result.0 ≡ tables_in s.now) × (result.1.now ≡ rest_in s.now) }
    {
        let mut left = 0;
        let mut rest = s;
        while let Some((_, after)) = read_table(rest) {
            left += 1;
            rest = after;
        }
        (Tables { rest: s, left }, rest)
    }
}

impl<'a> Iterator for Tables<'a> {
    ghost use Rattle.std.specs.Iterator.{YieldsFirstBy, item_count};
    ghost use Rattle.many_text.specs.View.{table_of, tables_left};

    type Item = Table<'a>;

    ghost next_gives = { YieldsFirstBy table_of tables_left };

    ghost remaining = { item_count tables_left };

    #[tactic(auto, using(crate::proofs::Walk::one_by_one))]
    fn next(&mut self) -> Option<Table<'a>> {
        let (table, rest) = read_table(self.rest)?;
        self.rest = rest;
        self.left -= 1;
        Some(table)
    }
}
