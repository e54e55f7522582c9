// Replays counts on the cases of standard input: a line `LEN KIND NODE`, LEN bytes of text and a newline each; KIND 0 asks for the outputs, 1 for the values
// of a node. For each case it writes `0 COUNT` or `0 LEAST COUNT` and the numbers, or `no NUMBER LINE`; behind them `kept`, where each place of the
// caller's array that has none of the numbers is as it was.
#![tactic(auto)]

use rules::Refusal;
use std::io;
use value_counts::ValueCounts;
use vectors::{Cases, FromTokens, Numbered, Tokens};

// What the array holds before a call.
const UNTOUCHED: u32 = 7;

#[derive(Drop)]
struct Case<'a> {
    text: &'a [u8],
    values: bool,
    node: usize,
}

impl<'a> FromTokens<'a> for Case<'a> {
    fn read(input: &mut Tokens<'a>) -> Option<Case<'a>> {
        let size = input.next()?.value as usize;
        let values = input.next()?.value == 1;
        let node = input.next()?.value as usize;
        let text = input.text(size)?;
        Some(Case { text, values, node })
    }
}

// The first of these, and whether the others are untouched.
fn show_places(rt: &impl Print, counts: &[u32], count: usize) -> io::Result<()> {
    for number in counts.iter().take(count) {
        print!(rt; " {}", *number)?;
    }
    let kept = counts.iter().skip(count).all(|c| *c == UNTOUCHED);
    println!(rt; "{}", if kept { " kept" } else { " changed" })
}

fn show_outputs(rt: &impl Print, reply: Result<usize, Refusal>, counts: &[u32]) -> io::Result<()> {
    match reply {
        Ok(count) => {
            print!(rt; "0 {}", count)?;
            show_places(rt, counts, count)
        }
        Err(refusal) => {
            print!(rt; "no {}", Numbered(refusal))?;
            show_places(rt, counts, 0)
        }
    }
}

fn show_values(
    rt: &impl Print,
    reply: Result<ValueCounts, Refusal>,
    counts: &[u32],
) -> io::Result<()> {
    match reply {
        Ok(values) => {
            print!(rt; "0 {} {}", values.least, values.count)?;
            show_places(rt, counts, values.count)
        }
        Err(refusal) => {
            print!(rt; "no {}", Numbered(refusal))?;
            show_places(rt, counts, 0)
        }
    }
}

fn replay(rt: &impl Print, case: &Case) -> io::Result<()> {
    if case.values {
        let mut counts = [UNTOUCHED; 342];
        let reply = value_counts::value_counts(case.text, case.node, &mut counts);
        return show_values(rt, reply, &counts);
    }
    let mut counts = [UNTOUCHED; 32];
    let reply = grades::ones(case.text, &mut counts);
    show_outputs(rt, reply, &counts)
}

fn main(rt: HostRuntime) -> io::Result<()> {
    let mut buffer = [0u8; 262144];
    for case in Cases::<Case>::read(&mut rt.stdin(), &mut buffer) {
        replay(&rt, &case)?;
    }
    Ok(())
}
