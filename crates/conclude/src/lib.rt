// What is left when all outputs are mapped: the nodes that are kept, Basic's last check, and the text. It leans on `prune` and `writer`.
#![tactic(auto)]

pub mod live;
pub mod norm;

ghost use Rattle.std.specs.Prelude.{◌≡◌, ◌&&◌, not, List, map, ℕ, length};
ghost use Rattle.rules.specs.Cone.{within_norm};
ghost use Rattle.rules.specs.Mapper.{is_basic, answer_with, map_reply};
ghost use Rattle.rules.specs.Outcome.{outcome};
ghost use Rattle.rules.specs.Store.{kept_from};
ghost use Rattle.forms.specs.Forms.{output_of};
ghost use Rattle.nodes.specs.Store.{store_of};
ghost use Rattle.writer.specs.Kept.{Closed, Numbered};
ghost use Rattle.conclude.specs.Norm.{largest_norm};
ghost use Rattle.conclude.specs.Conclude.{concluded, Finishable};
ghost use Rattle.conclude.specs.Recorded.{Recorded};

use crate::live::keep;
use crate::norm::largest_norm;
use forms::{Net, Output};
use lines::answer::answer;
use nodes::store::Store;
use rules::{Reason, Refusal, Settings};
use writer::Text;

// Basic's last check is on the largest norm.
#[tactic(auto, using(crate::specs::Conclude::basic_over))]
fn is_over_norm(s: Settings, store: &Store, live: &[Option<u16>; 672]) -> bool
    ensures { (kept : List ℕ) → Numbered kept live.now (length (store_of store.now)) → Closed kept store.now → result ≡ (is_basic s.policy && not (within_norm s (largest_norm (kept_from kept 0 (store_of store.now))))) }
{
    s.policy.is_basic() && s.norm.is_over(largest_norm(store, live))
}

// The end of a mapping: the kept nodes, Basic's check, the text.
#[tactic(auto, using(crate::specs::Conclude::concludes, crate::specs::Recorded::recorded))]
pub fn conclude<'a>(
    out: &mut [u8],
    settings: Settings,
    outputs: &'a [Output<'a>],
    store: &'a Store,
) -> Result<usize, Refusal>
    requires { Finishable settings (map output_of outputs.now) store.now }
    ensures is { outcome (map_reply result) out.new ≡ answer_with out.old (concluded settings (map output_of outputs.now) store.now) }
    ensures recorded { Recorded settings (map output_of outputs.now) store.now }
{
    let live = keep(store, outputs);
    if is_over_norm(settings, store, &live) {
        return Err(Refusal::of_whole(Reason::OverNorm));
    }
    // By its fields: `From` would stand in `forms`, and nothing else would use it.
    let net = Net {
        p: settings.p,
        m: settings.m,
        norm: settings.norm,
    };
    let text = Text {
        net,
        outputs,
        store,
        live: &live,
    };
    answer(out, |b| text.write(b))
}
