// Admission: a network's text of either edition judged (21 to 26, 38 and 39), and its statistics. It leans on the reader (`edition`).
#![tactic(auto)]

mod count;

ghost use Rattle.std.specs.Prelude.{◌≡◌};
ghost use Rattle.rules.specs.Admission.{admission, admit_reply};

pub use count::stats_of;
use network::Network;
use rules::{Refusal, Stats};

// The statistics of a network whose lines meet none of these, or the number and the line of the first that does.
#[tactic(auto, unfolding(rules::specs::Admission::admission, rules::specs::Admission::admission_of))]
pub fn admit(text: &[u8]) -> Result<Stats, Refusal>
    ensures { admit_reply result ≡ admission text.now }
{
    let mut network = Network::new();
    edition::read(text, &mut network)?;
    Ok(stats_of(&network.store, network.outputs.len()))
}
