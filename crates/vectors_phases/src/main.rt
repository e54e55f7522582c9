// Replays slots on the cases of standard input, a line `P VALUE ERROR` each. For each case it writes the refusal's number, or 0, and the slot.
#![tactic(auto)]

use vectors::{Cases, FromTokens, Tokens};

#[derive(Drop)]
struct Case {
    p: usize,
    value: i32,
    error: i32,
}

impl<'a> FromTokens<'a> for Case {
    fn read(input: &mut Tokens<'a>) -> Option<Case> {
        let p = input.next()?.value as usize;
        let value = input.next_or_zero().signed();
        let error = input.next_or_zero().signed();
        Some(Case { p, value, error })
    }
}

// A write that fails is let go: the output then differs from the listed one.
fn main(rt: HostRuntime) {
    let mut buffer = [0u8; 131072];
    for case in Cases::<Case>::read(&mut rt.stdin(), &mut buffer) {
        let _ = match phase::slot(case.p, case.value, case.error) {
            Ok(slot) => println!(rt; "0 {slot}"),
            Err(reason) => println!(rt; "{} 0", reason.number()),
        };
    }
}
