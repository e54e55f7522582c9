// The node store (src/lut.rs): its nodes, each with its depth and its table's centre, in the order in which they came; and a node's norm.
// It leans on `packed` and on the kit's `arrayvec`.
#![tactic(auto)]

pub mod depth;
pub mod node;
pub mod norm;
pub mod store;
pub mod terms;
