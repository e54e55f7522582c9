// Numbers and lists in as few bytes as they need: a number below 65536 in two, a list in place with its count in one. What is made of them lies at any
// address, with nothing between its parts. It leans on the kit alone.
#![tactic(auto)]

pub mod number;
pub mod short;
