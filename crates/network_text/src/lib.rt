// The lines of a network's text. It leans on what both texts are made of (`forms`, `text`) and on the terms of a sum (`nodes`).
#![tactic(auto, unfolding(crate::specs::Readers::readers))]

mod line;
mod sum;
mod table;

pub use line::{Line, read_line, read_net};
pub use table::TableText;
