// The parts of a `many` line. What is open is the node of such a line, if there is one.
ghost use Rattle.std.specs.Prelude.{◌≡◌, ℕ, ◌≤◌, T, get_or};
ghost use Rattle.rules.specs.Rotation.{rotatable, centre_of};
ghost use Rattle.nodes.specs.View.{lut_node};
ghost use Rattle.lines.specs.Lines2.{table_text};
ghost use Rattle.lines.specs.Put.{Put, Room};
ghost use Rattle.writer.specs.Live.{new_node, Ready};
ghost use Rattle.writer2.specs.Stream.{closing, opening, open_behind};

use lines::cursor::Cursor;
use lines::line2::{put_many, put_table};
use nodes::node::LutNode;
use writer::node_lines::number_of;

// What is open behind a node.
#[tactic(auto, unfolding(nodes::specs::View::lut_node, writer::specs::Live::new_node, crate::specs::Stream::open_behind))]
pub fn open_behind(node: &LutNode, live: &[Option<u16>; 672]) -> Option<usize>
    requires { Ready live.now (lut_node node.now) }
    ensures { result ≡ open_behind (new_node live.now (lut_node node.now)) }
{
    match node {
        LutNode::Bootstrap { source, .. } => Some(number_of(live, source.get())),
        LutNode::Input { .. } | LutNode::Linear { .. } => None,
    }
}

// The end of a line that is open.
pub fn put_closing(cursor: &mut Cursor<'_>, opened: Option<usize>)
    requires { Room cursor.old.at (closing opened) }
    ensures { Put (closing opened) cursor.old cursor.new }
{
    if opened.is_some() {
        cursor.put_all(b")\n");
    }
}

// What stands before a table on node `source`.
pub fn put_opening(cursor: &mut Cursor<'_>, opened: Option<usize>, source: usize)
    requires { Room cursor.old.at (opening opened source) }
    ensures { Put (opening opened source) cursor.old cursor.new }
{
    if opened == Some(source) {
        return;
    }
    put_closing(cursor, opened);
    put_many(cursor, source);
}

// ` (BITS CENTRE)` of a table that turns.
#[tactic(auto, using(crate::specs::Node2::bits_of))]
pub fn put_turned(cursor: &mut Cursor<'_>, p: usize, table: &[u8])
    requires bits { (k : ℕ) → get_or table.now k 0 ≤ 1 }
    requires turns { T (rotatable p table.now) }
    requires room { Room cursor.old.at (table_text table.now (centre_of p table.now)) }
    ensures { Put (table_text table.now (centre_of p table.now)) cursor.old cursor.new }
{
    put_table(cursor, table, rotation::centre(table, p) as usize);
}
