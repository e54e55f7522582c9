// Writing a network's text in edition 2 from the node store, its nodes in a new order. It leans on `writer`, `lines`, `nodes` and `rotation`.
#![tactic(auto)]

pub mod many;
pub mod tables;

ghost use Rattle.lines.specs.Front.{Written};
ghost use Rattle.lines.specs.Put.{Room};
ghost use Rattle.writer2.specs.Node2.{Ordered};
ghost use Rattle.writer2.specs.Whole2.{written2};

use lines::cursor::Cursor;
use lines::line::put_net;
use many::put_lines;
use writer::Text;
use writer::outputs::put_outs;

// The text, as far as the buffer reaches; answers its length.
pub fn write(out: &mut [u8], text: &Text<'_>, order: &[u16]) -> usize
    requires ordered { Ordered text.now.net.p text.now.live.now text.now.store.now order.now }
    requires room { Room 0 (written2 text.now order.now) }
    ensures { Written (written2 text.now order.now) out.old result out.new }
{
    // By its parts, since `lines` leans on `rules` alone, and `Net` stands in `forms`.
    let net = text.net;
    let mut cursor = Cursor { out, at: 0 };
    put_net(&mut cursor, b"(net2 ", net.p, net.m, net.norm);
    put_lines(&mut cursor, text, order);
    put_outs(&mut cursor, text.outputs, text.live);
    cursor.at
}
