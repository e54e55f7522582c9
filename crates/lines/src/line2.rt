// The lines of edition 2 that the plain text has not, from their parts.
ghost use Rattle.std.specs.Prelude.{ℕ, ◌≤◌, get_or};
ghost use Rattle.lines.specs.Put.{Put, Room};
ghost use Rattle.lines.specs.Lines2.{many_text, table_text};

use crate::cursor::Cursor;

// `(many ID`, before its tables
#[tactic(auto, using(crate::specs::Put::pieces), unfolding(crate::specs::Lines2::many_text))]
pub fn put_many(cursor: &mut Cursor<'_>, source: usize)
    requires { Room cursor.old.at (many_text source) }
    ensures { Put (many_text source) cursor.old cursor.new }
{
    cursor.put_all(b"(many ");
    cursor.put_number(source);
}

// ` (BITS CENTRE)`
#[tactic(auto, using(crate::specs::Put::pieces), unfolding(crate::specs::Lines2::table_text))]
pub fn put_table(cursor: &mut Cursor<'_>, table: &[u8], centre: usize)
    requires by_index { (i : ℕ) → get_or table.now i 0 ≤ 1 }
    requires room { Room cursor.old.at (table_text table.now centre) }
    ensures { Put (table_text table.now centre) cursor.old cursor.new }
{
    cursor.put_all(b" (");
    cursor.put_bits(table);
    cursor.put(b' ');
    cursor.put_number(centre);
    cursor.put(b')');
}
