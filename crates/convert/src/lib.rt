// The converter between the editions of the network text (document 02, S-11). It leans on the reader (`edition`), on `regroup` and the writers.
#![tactic(auto)]

mod texts;

ghost use Rattle.std.specs.Prelude.{◌≡◌};
ghost use Rattle.rules.specs.Converter.{converter};
ghost use Rattle.rules.specs.Mapper.{map_reply};
ghost use Rattle.rules.specs.Outcome.{outcome};

use network::Network;
use rules::Refusal;

// A network's text in the other edition over the buffer's front, later bytes kept. A refusal (those of admission, 11 where the buffer is
// too short) keeps every byte.
pub fn convert(text: &[u8], out: &mut [u8]) -> Result<usize, Refusal>
    ensures { outcome (map_reply result) out.new ≡ converter text.now out.old }
{
    let mut network = Network::new();
    let net = edition::read(text, &mut network)?;
    if edition::is_edition_2(text) {
        texts::to_plain(out, net, &network)
    } else {
        texts::to_second(out, net, &network)
    }
}
