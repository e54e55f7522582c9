// Bounds and table of one node of a network. It leans on `nodes`, `network_text` and `rotation`.
#![tactic(auto)]

pub mod bounds;
pub mod table;
