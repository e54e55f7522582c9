// The lines of a network's text of edition 2 (document 02, S-11) that the plain text does not have. It leans on the pieces (`text`, `forms`) and on
// the plain text's lines (`network_text`).
#![tactic(auto, unfolding(crate::specs::Readers::readers))]

mod line;
mod table;
mod tables;

pub use line::{Line, read_line};
pub use table::Table;
pub use tables::Tables;
