// One line of a circuit's text: its form, read from the front of the text, with what is kept of it.
// It leans on the pieces of a text (`text`), and for a gate's wires on `circuit_conditions`.
#![tactic(auto)]

pub mod gate;
pub mod line;
pub mod settings;
