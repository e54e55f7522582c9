// A network run: its text read, its nodes run in order, its outputs' values written. It leans on the reader (`network`), `rotation` and `bits`.
#![tactic(auto)]

mod value;
mod walk;
mod write;

ghost use Rattle.std.specs.Prelude.{◌≡◌};
ghost use Rattle.rules.specs.Form.{Good};
ghost use Rattle.rules.specs.Runs.{run_reply, ran, run_network_on, run_network};
ghost use Rattle.network.specs.View.{network_of};

use forms::Net;
use network::Network;
use rules::RunError;
pub use walk::{are_rotatable, run_nodes, run_rotatable};

// A network that was read, with its `net` line, run on a bit for each input.
#[tactic(auto, using(crate::specs::Entry::runs))]
pub fn run_read(
    net: Net,
    network: &Network<'_>,
    bits: &[u8],
    values: &mut [i64],
) -> Result<usize, RunError>
    ensures { ran (run_reply result) values.new ≡ run_network_on (Good (network_of net network.now)) bits.now values.old }
{
    if !bits::are_bits_for(network.inputs, bits) {
        return Err(RunError::BadBits);
    }
    if values.len() < network.outputs.len() {
        return Err(RunError::ShortBuffer);
    }
    let node_values = run_nodes(&network.store, net.p, bits).ok_or(RunError::BrokenOff)?;
    write::write_values(&network.outputs, &node_values, values);
    Ok(network.outputs.len())
}

// The outputs' values for a bit of each input, one an output, later places kept. Tested in turn: the text (21 and 22), the bits, the buffer,
// and whether a boot breaks off; what is no run keeps the buffer.
#[tactic(auto, unfolding(rules::specs::Runs::run_network, rules::specs::Runs::run_network_on))]
pub fn run_network(text: &[u8], bits: &[u8], values: &mut [i64]) -> Result<usize, RunError>
    ensures { ran (run_reply result) values.new ≡ run_network text.now bits.now values.old }
{
    let mut network = Network::new();
    let net = network::read(text, &mut network).map_err(RunError::Unreadable)?;
    run_read(net, &network, bits, values)
}
