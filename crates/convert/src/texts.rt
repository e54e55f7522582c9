// Both texts.
ghost use Rattle.std.specs.Prelude.{◌≡◌, Some};
ghost use Rattle.rules.specs.Converter.{network_text2, answer_text};
ghost use Rattle.rules.specs.Form.{Good};
ghost use Rattle.rules.specs.Mapper.{map_reply};
ghost use Rattle.rules.specs.Outcome.{outcome};
ghost use Rattle.rules.specs.Regroup.{regrouped};
ghost use Rattle.rules.specs.Writing.{network_text};
ghost use Rattle.theorems.specs.SoundCircuits.{SmallLimit};
ghost use Rattle.nodes.specs.Store.{store_of};
ghost use Rattle.network.specs.View.{network_of};
ghost use Rattle.convert.specs.Moved.{Counted};
ghost use Rattle.convert.specs.Both.{AllTurn};

use forms::Net;
use lines::answer::answer;
use network::Network;
use rules::Refusal;
use writer::Text;

// Each number as it is.
fn own_numbers() -> [Option<u16>; 672]
    ensures { Counted result }
{
    std::array::from_fn(|i| Some(i as u16))
}

// The plain text: the nodes as they stand.
pub fn to_plain<'a>(out: &mut [u8], net: Net, w: &'a Network<'a>) -> Result<usize, Refusal>
    requires net { w.now.net ≡ Some net }
    requires limit { SmallLimit net.norm }
    ensures { outcome (map_reply result) out.new ≡ answer_text out.old (Good (network_text (network_of net w.now))) }
{
    let live = own_numbers();
    let text = Text {
        net,
        outputs: &w.outputs,
        store: &w.store,
        live: &live,
    };
    answer(out, |b| text.write(b))
}

// Edition 2: the nodes regrouped. Asks that the tables turn.
pub fn to_second<'a>(out: &mut [u8], net: Net, w: &'a Network<'a>) -> Result<usize, Refusal>
    requires net { w.now.net ≡ Some net }
    requires limit { SmallLimit net.norm }
    requires turn { AllTurn net.p (store_of w.now.store) }
    ensures { outcome (map_reply result) out.new ≡ answer_text out.old (Good (network_text2 (regrouped (network_of net w.now)))) }
{
    let order = regroup::arrange(&w.store);
    let live = regroup::number(&order);
    let text = Text {
        net,
        outputs: &w.outputs,
        store: &w.store,
        live: &live,
    };
    answer(out, |b| writer2::write(b, &text, &order))
}
