// One scale pair: what two cones' coefficients become under it, and its score beside another's. It leans on
// `compose`, `linear`, `scale` and the definitions of `merged_rows`.
#![tactic(auto)]

pub mod pair;
pub mod score;
