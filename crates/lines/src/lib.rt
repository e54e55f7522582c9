// The lines of a network's text: a cursor stores a byte only where the buffer reaches so far, and counts all of them.
// So a text's length can be reckoned first, on a buffer of no bytes. A number's digits are the kit's `itoa`. It leans on `rules`.
#![tactic(auto)]

pub mod answer;
pub mod cursor;
pub mod line;
pub mod line2;
