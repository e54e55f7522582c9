// Mapping with a kept state (document 02, S-14), by its definitions and what is proved of them: no function, only specs/ and proofs/. It leans on `rules`,
// `theorems` and `mapped`.
#![tactic(auto)]
