// Replays the converter on the cases of standard input: a line `LEN COUNT`, LEN bytes of text and a newline each. The text is converted into a
// buffer of COUNT bytes, each a `#` before. For each case it writes `0 BYTES` or `no NUMBER LINE`, and on a new line the buffer.
#![tactic(auto)]

use std::io;
use vectors::{Cases, FromTokens, Numbered, Tokens};

#[derive(Drop)]
struct Case<'a> {
    text: &'a [u8],
    // of the buffer's bytes
    count: usize,
}

impl<'a> FromTokens<'a> for Case<'a> {
    fn read(input: &mut Tokens<'a>) -> Option<Case<'a>> {
        let size = input.next()?.value as usize;
        let count = input.next()?.value as usize;
        let text = input.text(size)?;
        Some(Case { text, count })
    }
}

// Into the buffer's first bytes.
fn replay(rt: &impl Print, case: &Case<'_>, buffer: &mut [u8]) -> io::Result<()> {
    let n = case.count.min(buffer.len());
    let out = &mut buffer[..n];
    match convert::convert(case.text, out) {
        Ok(n) => println!(rt; "0 {n}")?,
        Err(refusal) => println!(rt; "no {}", Numbered(refusal))?,
    }
    rt.write_all(out)?;
    println!(rt)
}

// The first 100,000 cases. A write that fails is let go: the output then differs from the listed one.
fn main(rt: HostRuntime) {
    let mut buffer = [0u8; 655360];
    for case in Cases::<Case>::read(&mut rt.stdin(), &mut buffer).take(100_000) {
        let _ = replay(&rt, &case, &mut [b'#'; 131072]);
    }
}
