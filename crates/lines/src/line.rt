// The lines of a network, from their parts.
ghost use Rattle.std.specs.Prelude.{[], ◌∷◌, ◌++◌, ℕ, ◌≤◌, nat_abs, get_or};
ghost use Rattle.rules.specs.Network.{Bootstrap};
ghost use Rattle.rules.specs.Writing.{digits, limit_text, wire_text, weight_text, node_text};
ghost use Rattle.lines.specs.Put.{Put, Room};
ghost use Rattle.lines.specs.Lines.{settings_text, in_text, term_text, out_text};

use crate::cursor::Cursor;
use rules::{Limit, Wire};

// NORM
pub fn put_norm(cursor: &mut Cursor<'_>, norm: Limit)
    requires { Room cursor.old.at (limit_text norm) }
    ensures { Put (limit_text norm) cursor.old cursor.new }
{
    match norm {
        Limit::Unlimited => cursor.put_all(b"none"),
        Limit::AtMost(k) => cursor.put_number(k),
    }
}

// The first line, `(net P M NORM)` or `(net2 P M NORM)`, from the word that opens it.
#[tactic(auto, using(crate::specs::Put::pieces))]
pub fn put_net(cursor: &mut Cursor<'_>, word: &[u8], p: usize, m: usize, norm: Limit)
    requires { Room cursor.old.at (settings_text word.now p m norm) }
    ensures { Put (settings_text word.now p m norm) cursor.old cursor.new }
{
    cursor.put_all(word);
    cursor.put_number(p);
    cursor.put(b' ');
    cursor.put_number(m);
    cursor.put(b' ');
    put_norm(cursor, norm);
    cursor.put_all(b")\n");
}

// A blank and W; 1 is not written.
fn put_weight(cursor: &mut Cursor<'_>, weight: usize)
    requires { Room cursor.old.at (weight_text weight) }
    ensures { Put (weight_text weight) cursor.old cursor.new }
{
    if weight != 1 {
        cursor.put(b' ');
        cursor.put_number(weight);
    }
}

// `(in NAME)` or `(in NAME W)`
#[tactic(auto, using(crate::specs::Put::pieces), unfolding(crate::specs::Lines::in_text))]
pub fn put_in(cursor: &mut Cursor<'_>, name: &[u8], weight: usize)
    requires { Room cursor.old.at (in_text name.now weight) }
    ensures { Put (in_text name.now weight) cursor.old cursor.new }
{
    cursor.put_all(b"(in ");
    cursor.put_all(name);
    put_weight(cursor, weight);
    cursor.put_all(b")\n");
}

// ` (COEF ID)`
#[tactic(auto, using(crate::specs::Put::pieces), unfolding(crate::specs::Lines::term_text))]
pub fn put_term(cursor: &mut Cursor<'_>, c: i64, node: usize)
    requires c_bound { nat_abs c ≤ 31 }
    requires room { Room cursor.old.at (term_text c node) }
    ensures { Put (term_text c node) cursor.old cursor.new }
{
    cursor.put_all(b" (");
    cursor.put_signed(c);
    cursor.put(b' ');
    cursor.put_number(node);
    cursor.put(b')');
}

// `(boot ID BITS)`
#[tactic(auto, using(crate::specs::Put::pieces), unfolding(rules::specs::Writing::node_text))]
pub fn put_boot(cursor: &mut Cursor<'_>, source: usize, table: &[u8])
    requires by_index { (i : ℕ) → get_or table.now i 0 ≤ 1 }
    requires room { Room cursor.old.at (node_text (Bootstrap source table.now)) }
    ensures { Put (node_text (Bootstrap source table.now)) cursor.old cursor.new }
{
    cursor.put_all(b"(boot ");
    cursor.put_number(source);
    cursor.put(b' ');
    cursor.put_bits(table);
    cursor.put_all(b")\n");
}

// A bracket with a number in it, as wires are.
#[tactic(auto, using(crate::specs::Put::pieces))]
fn put_numbered(cursor: &mut Cursor<'_>, word: &[u8], n: usize)
    requires { Room cursor.old.at (word.now ++ digits n ++ (41 ∷ [])) }
    ensures { Put (word.now ++ digits n ++ (41 ∷ [])) cursor.old cursor.new }
{
    cursor.put_all(word);
    cursor.put_number(n);
    cursor.put(b')');
}

// WIRE
fn put_wire(cursor: &mut Cursor<'_>, wire: Wire)
    requires { Room cursor.old.at (wire_text wire) }
    ensures { Put (wire_text wire) cursor.old cursor.new }
{
    match wire {
        Wire::Const(b) => put_numbered(cursor, b"(k ", b as usize),
        Wire::Node(i) => put_numbered(cursor, b"(n ", i),
    }
}

// `(out NAME WIRE)`
#[tactic(auto, using(crate::specs::Put::pieces), unfolding(crate::specs::Lines::out_text))]
pub fn put_out(cursor: &mut Cursor<'_>, name: &[u8], wire: Wire)
    requires { Room cursor.old.at (out_text name.now wire) }
    ensures { Put (out_text name.now wire) cursor.old cursor.new }
{
    cursor.put_all(b"(out ");
    cursor.put_all(name);
    cursor.put(b' ');
    put_wire(cursor, wire);
    cursor.put_all(b")\n");
}
