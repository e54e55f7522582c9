// A cell for each cone.
ghost use Rattle.std.specs.Prelude.{◌<◌, ◌≤◌, ℕ, map, pos, nat_abs, get_or};
ghost use mathlib.Core.List.{flat_map};
ghost use Rattle.rotation.specs.Entries.{numbers};
ghost use Rattle.cone.specs.View.{cone_of};
ghost use Rattle.lines.specs.Put.{Put, Room};
ghost use Rattle.retuning.specs.Kept.{padded, two_bytes, signed_byte, cone_bytes, cone_cell};

use cells::{pad, put_two, signed_byte};
use cone::Cone;
use lines::cursor::Cursor;
use rules::Entry;

fn put_sources(cursor: &mut Cursor<'_>, sources: &[usize])
    requires near { (i : ℕ) → get_or sources.now i 0 < 672 }
    requires room { Room cursor.old.at (flat_map two_bytes sources.now) }
    ensures { Put (flat_map two_bytes sources.now) cursor.old cursor.new }
{
    for &source in sources {
        put_two(cursor, source);
    }
}

fn put_coefficients(cursor: &mut Cursor<'_>, coefs: &[i64])
    requires small { (i : ℕ) → nat_abs (get_or coefs.now i (pos 0)) ≤ 31 }
    requires room { Room cursor.old.at (map signed_byte coefs.now) }
    ensures { Put (map signed_byte coefs.now) cursor.old cursor.new }
{
    for &c in coefs {
        cursor.put(signed_byte(c));
    }
}

fn put_entries(cursor: &mut Cursor<'_>, known: &[Entry])
    requires { Room cursor.old.at (numbers known.now) }
    ensures { Put (numbers known.now) cursor.old cursor.new }
{
    for &entry in known {
        cursor.put(rotation::number_of(entry));
    }
}

fn put_cone_bytes(cursor: &mut Cursor<'_>, cone: &Cone)
    requires { Room cursor.old.at (cone_bytes (cone_of cone.now)) }
    ensures { Put (cone_bytes (cone_of cone.now)) cursor.old cursor.new }
{
    cursor.put(cone.n as u8);
    put_sources(cursor, cone.sources());
    put_coefficients(cursor, cone.coefficients());
    put_entries(cursor, &cone.known[..cone.span()]);
}

fn put_cone(cursor: &mut Cursor<'_>, cone: &Cone)
    requires { Room cursor.old.at (cone_cell (cone_of cone.now)) }
    ensures { Put (cone_cell (cone_of cone.now)) cursor.old cursor.new }
{
    let start = cursor.at;
    put_cone_bytes(cursor, cone);
    pad(cursor, start, 66);
}

pub fn put_cones(cursor: &mut Cursor<'_>, wires: &[Cone])
    requires { Room cursor.old.at (padded 8448 (flat_map cone_cell (map cone_of wires.now))) }
    ensures { Put (padded 8448 (flat_map cone_cell (map cone_of wires.now))) cursor.old cursor.new }
{
    let start = cursor.at;
    for cone in wires {
        put_cone(cursor, cone);
    }
    pad(cursor, start, 8448);
}
