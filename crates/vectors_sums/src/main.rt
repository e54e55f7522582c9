// Replays readings of sums on the cases of standard input: a line `LEN NODE VALUE`, LEN bytes of text and a newline each.
// For each case it writes `0 COUNT`, `none` or `no NUMBER LINE`, and the 11 places for bits.
#![tactic(auto)]

use rules::{Refusal, Shown};
use std::io;
use vectors::{Bits, Cases, FromTokens, Numbered, Tokens};

#[derive(Drop)]
struct Case<'a> {
    text: &'a [u8],
    node: usize,
    value: i32,
}

impl<'a> FromTokens<'a> for Case<'a> {
    fn read(input: &mut Tokens<'a>) -> Option<Case<'a>> {
        let size = input.next()?.value as usize;
        let node = input.next()?.value as usize;
        let value = input.next()?.signed();
        let text = input.text(size)?;
        Some(Case { text, node, value })
    }
}

fn show(rt: &impl Print, reply: Result<Option<Shown>, Refusal>) -> io::Result<()> {
    match reply {
        Ok(Some(shown)) => println!(rt; "0 {} {}", shown.count, Bits(&shown.bits)),
        Ok(None) => println!(rt; "none {}", Bits(&[0; 11])),
        Err(refusal) => println!(rt; "no {} {}", Numbered(refusal), Bits(&[0; 11])),
    }
}

// A write that fails is let go: the output then differs from the listed one.
fn main(rt: HostRuntime) {
    let mut buffer = [0u8; 262144];
    for case in Cases::<Case>::read(&mut rt.stdin(), &mut buffer) {
        let _ = show(
            &rt,
            sum_reading::sum_reading(case.text, case.node, case.value),
        );
    }
}
