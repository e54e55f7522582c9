// Rows, a value and a truth each, entered into known entries and looked up in them, and the bounds of the values. Its code leans on no other but
// `rules`, its specs on those of `rotation`.
#![tactic(auto)]

mod rows;

pub use rows::{Bounds, bounds_of, enter, enter_into, look_up, offset, span_of, with_truth};
