// The rows of an attempt to merge two cones, each kept once, and the sums that give a scale pair's energy. Its code leans on no other, its specs on those of `compose`.
#![tactic(auto)]

pub mod energy;
pub mod rows;
