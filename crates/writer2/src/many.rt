// The nodes' lines, the tables of one node in one `many` line.
ghost use Rattle.nodes.specs.Store.{store_of};
ghost use Rattle.nodes.specs.View.{lut_node};
ghost use Rattle.lines.specs.Put.{Put, Room};
ghost use Rattle.writer.specs.Live.{new_node};
ghost use Rattle.writer2.specs.Node2.{Known, Ordered, ordered};
ghost use Rattle.writer2.specs.Stream.{piece, stream};

use crate::tables::{open_behind, put_closing, put_opening, put_turned};
use lines::cursor::Cursor;
use nodes::node::LutNode;
use writer::Text;
use writer::node_lines::{number_of, put_node};

// A node behind what is open.
#[tactic(auto, using(lines::specs::Put::pieces), unfolding(nodes::specs::View::lut_node, writer::specs::Live::new_node, crate::specs::Stream::piece, crate::specs::Node2::Turns))]
fn put_piece(
    cursor: &mut Cursor<'_>,
    p: usize,
    node: &LutNode,
    live: &[Option<u16>; 672],
    opened: Option<usize>,
)
    requires known { Known p live.now (lut_node node.now) }
    requires room { Room cursor.old.at (piece p opened (new_node live.now (lut_node node.now))) }
    ensures { Put (piece p opened (new_node live.now (lut_node node.now))) cursor.old cursor.new }
{
    match node {
        LutNode::Bootstrap { source, table } => {
            let source = number_of(live, source.get());
            put_opening(cursor, opened, source);
            put_turned(cursor, p, table);
        }
        LutNode::Input { .. } | LutNode::Linear { .. } => {
            put_closing(cursor, opened);
            put_node(cursor, node, live);
        }
    }
}

// All of them in their order.
pub fn put_lines(cursor: &mut Cursor<'_>, text: &Text<'_>, order: &[u16])
    requires ordered { Ordered text.now.net.p text.now.live.now text.now.store.now order.now }
    requires room { Room cursor.old.at (stream text.now.net.p None (ordered text.now.live.now (store_of text.now.store.now) order.now)) }
    ensures { Put (stream text.now.net.p None (ordered text.now.live.now (store_of text.now.store.now) order.now)) cursor.old cursor.new }
{
    let mut opened = None;
    for &i in order {
        let node = text.store.node(i as usize);
        put_piece(cursor, text.net.p, node, text.live, opened);
        opened = open_behind(node, text.live);
    }
    put_closing(cursor, opened);
}
