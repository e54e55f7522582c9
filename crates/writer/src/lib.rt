// Writing a network's text from the node store, dead nodes left out and numbers renewed. It leans on `lines` and `nodes`.
#![tactic(auto)]

pub mod node_lines;
pub mod outputs;

ghost use Rattle.std.specs.Prelude.{map};
ghost use Rattle.forms.specs.Forms.{output_of};
ghost use Rattle.writer.specs.Live.{Sourced, Sourced_prop};
ghost use Rattle.writer.specs.Outputs.{AllLive, AllLive_prop};

use forms::{Net, Output};
use lines::cursor::Cursor;
use lines::line::put_net;
use node_lines::put_nodes;
use nodes::store::Store;
use outputs::put_outs;

// The parts of a network's text. `live` has the new number of each node that is written, and none for a node that is left out.
// What a live node needs is live, and so are the outputs' nodes.
#[derive(Clone, Copy)]
pub struct Text<'a> {
    pub net: Net,
    pub outputs: &'a [Output<'a>],
    pub store: &'a Store,
    pub live: &'a [Option<u16>; 672],
    ghost sourced: { Sourced live.now store.now } by { Sourced_prop live.now store.now },
    ghost all_live: { AllLive live.now (map output_of outputs.now) } by { AllLive_prop live.now (map output_of outputs.now) },
}

impl Text<'_> {
    ghost use Rattle.rules.specs.Writing.{network_text};
    ghost use Rattle.lines.specs.Put.{Room};
    ghost use Rattle.lines.specs.Front.{Written};
    ghost use Rattle.writer.specs.Whole.{written};

    // The text, as far as the buffer reaches; answers its length.
    pub fn write(&self, out: &mut [u8]) -> usize
        requires { Room 0 (network_text (written self.now)) }
        ensures { Written (network_text (written self.now)) out.old result out.new }
    {
        // By its parts, since `lines` leans on `rules` alone, and `Net` stands in `forms`.
        let net = self.net;
        let mut cursor = Cursor { out, at: 0 };
        put_net(&mut cursor, b"(net ", net.p, net.m, net.norm);
        put_nodes(&mut cursor, self.store, self.live);
        put_outs(&mut cursor, self.outputs, self.live);
        cursor.at
    }
}
