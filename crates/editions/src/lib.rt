// The two editions of the network text: theorems of the converter's definition, no function, only specs/ and proofs/. It leans on `theorems` and `mapped`.
#![tactic(auto)]
