// A bootstrap: a cone realigned to a form that a sum of the store has, and its table as a node. It leans on `cone`,
// `linear`, `known_rows` and the node store (`nodes`, `lut`). Settings and store stand beside each other in its functions, not in one record: `bootstrap_cone`
// lends the store first to read and then to write.
#![tactic(auto)]

pub mod boot;
pub mod form;
