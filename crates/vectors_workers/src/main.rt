// Replays runs with workers on the cases of standard input: a line `LEN WORKERS TICKS`, LEN bytes of text and a newline each. For each case it writes
// `0 COUNT TICKS` and the tick at which each boot begins, or `no NUMBER LINE`; behind them `kept`, where each later place of the caller's array is as it was.
#![tactic(auto)]

use rules::{Refusal, WorkerRun};
use std::io;
use vectors::{Cases, FromTokens, Numbered, Tokens};

// What the array holds before a call.
const UNTOUCHED: u32 = 7;

#[derive(Drop)]
struct Case<'a> {
    text: &'a [u8],
    workers: usize,
    ticks: usize,
}

impl<'a> FromTokens<'a> for Case<'a> {
    fn read(input: &mut Tokens<'a>) -> Option<Case<'a>> {
        let size = input.next()?.value as usize;
        let workers = input.next()?.value as usize;
        let ticks = input.next()?.value as usize;
        let text = input.text(size)?;
        Some(Case {
            text,
            workers,
            ticks,
        })
    }
}

// The first of these, and whether the others are untouched.
fn show_places(rt: &impl Print, starts: &[u32], count: usize) -> io::Result<()> {
    for tick in starts.iter().take(count) {
        print!(rt; " {}", *tick)?;
    }
    let kept = starts.iter().skip(count).all(|tick| *tick == UNTOUCHED);
    println!(rt; "{}", if kept { " kept" } else { " changed" })
}

fn show(rt: &impl Print, reply: Result<WorkerRun, Refusal>, starts: &[u32]) -> io::Result<()> {
    match reply {
        Ok(run) => {
            print!(rt; "0 {} {}", run.count, run.ticks)?;
            show_places(rt, starts, run.count)
        }
        Err(refusal) => {
            print!(rt; "no {}", Numbered(refusal))?;
            show_places(rt, starts, 0)
        }
    }
}

fn main(rt: HostRuntime) -> io::Result<()> {
    let mut buffer = [0u8; 327680];
    for case in Cases::<Case>::read(&mut rt.stdin(), &mut buffer) {
        let mut starts = [UNTOUCHED; 671];
        let reply = workers::trial(case.text, case.workers, case.ticks, &mut starts);
        show(&rt, reply, &starts)?;
    }
    Ok(())
}
