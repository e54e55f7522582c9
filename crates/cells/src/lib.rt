// The parts of cells, of which the kept bytes of a state are made: numbers, wires, bytes behind their count, and zeros up to a cell's end.
// It leans on the cursor of `lines`.
#![tactic(auto)]

ghost use Rattle.std.specs.Prelude.{◌≡◌, ◌∷◌, ◌-◌, ◌<◌, ◌≤◌, nat_abs, length, replicate};
ghost use Rattle.lines.specs.Put.{Put, Room};
ghost use Rattle.retuning.specs.Kept.{two_bytes, signed_byte, wire_bytes};
ghost use Rattle.cells.specs.Small.{SmallWire};

use lines::cursor::Cursor;
use rules::Wire;

// A number below 65,536, the low byte first.
#[tactic(auto, unfolding(retuning::specs::Kept::two_bytes))]
pub fn put_two(cursor: &mut Cursor<'_>, n: usize)
    requires small { n < 65536 }
    requires room { Room cursor.old.at (two_bytes n) }
    ensures { Put (two_bytes n) cursor.old cursor.new }
{
    cursor.put_all(&[(n % 256) as u8, (n / 256) as u8]);
}

// A coefficient or a constant, counted from -128 on.
#[tactic(auto, unfolding(retuning::specs::Kept::signed_byte))]
pub fn signed_byte(z: i64) -> u8
    requires { nat_abs z ≤ 31 }
    ensures { result ≡ signed_byte z }
{
    (z + 128) as u8
}

// The wire of a gate or of an output.
#[tactic(auto, unfolding(retuning::specs::Kept::wire_bytes))]
pub fn put_wire(cursor: &mut Cursor<'_>, wire: Wire)
    requires small { SmallWire wire }
    requires room { Room cursor.old.at (wire_bytes wire) }
    ensures { Put (wire_bytes wire) cursor.old cursor.new }
{
    match wire {
        Wire::Const(b) => cursor.put_all(&[0, b]),
        Wire::Node(i) => cursor.put_all(&[1, i as u8]),
    }
}

// Bytes behind their count.
#[tactic(auto, using(lines::specs::Put::pieces))]
pub fn put_counted(cursor: &mut Cursor<'_>, bytes: &[u8])
    requires few { length bytes.now ≤ 32 }
    requires room { Room cursor.old.at (length bytes.now ∷ bytes.now) }
    ensures { Put (length bytes.now ∷ bytes.now) cursor.old cursor.new }
{
    cursor.put(bytes.len() as u8);
    cursor.put_all(bytes);
}

// An input's weight and its name.
#[tactic(auto, using(lines::specs::Put::pieces))]
pub fn put_given(cursor: &mut Cursor<'_>, name: &[u8], weight: u8)
    requires short { length name.now ≤ 16 }
    requires room { Room cursor.old.at (weight ∷ length name.now ∷ name.now) }
    ensures { Put (weight ∷ length name.now ∷ name.now) cursor.old cursor.new }
{
    cursor.put(weight);
    put_counted(cursor, name);
}

// So many zeros.
#[tactic(auto, using(crate::specs::Pieces::zero_steps))]
fn put_zeros(cursor: &mut Cursor<'_>, n: usize)
    requires { Room cursor.old.at (replicate n 0) }
    ensures { Put (replicate n 0) cursor.old cursor.new }
{
    for _ in 0..n {
        cursor.put(0);
    }
}

// Zeros up to the end of a cell that began at `start`.
pub fn pad(cursor: &mut Cursor<'_>, start: usize, cell: usize)
    requires begun { start ≤ cursor.old.at }
    requires room { Room cursor.old.at (replicate (cell - (cursor.old.at - start)) 0) }
    ensures { Put (replicate (cell - (cursor.old.at - start)) 0) cursor.old cursor.new }
{
    put_zeros(cursor, cell.saturating_sub(cursor.at - start));
}
