// Replays calls of `retune` with one state buffer on the cases of standard input: a line `SIZE FILL LEN LINE ROOM HOW FIRST LAST XOR`, LEN bytes of text and a
// newline each (tests/retune/README.md says what they mean). For each case it writes what came back and what became of both buffers, or whether a call on a
// state that somebody altered did what it may.
#![tactic(auto)]

use retune::{Retuned, retune};
use rules::Refusal;
use std::io;
use vectors::{Cases, FromTokens, Numbered, Token, Tokens};

// Every byte of an answer buffer before it is lent: no text has it.
const UNTOUCHED: u8 = 165;

// The bytes of a state.
const KEPT: usize = 34704;

// Bytes that both buffers have here.
const PLACES: usize = 40000;

const ROOM: usize = 65536;

// No byte: the state buffer stays as it is.
const AS_LEFT: u64 = 256;

// What is asked of a call.
const DECIDED: u64 = 0;

const ALTERED: u64 = 1;

#[derive(Drop)]
struct Case<'a> {
    // bytes of the state buffer that are lent
    size: usize,
    // what it is filled with before
    fill: u64,
    line: usize,
    // bytes of the answer buffer that are lent
    room: usize,
    how: u64,
    // the bytes of the state from `first` to before `last` are altered
    first: usize,
    last: usize,
    xor: u8,
    text: &'a [u8],
}

impl<'a> FromTokens<'a> for Case<'a> {
    fn read(input: &mut Tokens<'a>) -> Option<Case<'a>> {
        let mut numbers = [Token::default(); 9];
        input.fill_or_zero(&mut numbers);
        let [size, fill, len, line, room, how, first, last, xor] = numbers;
        let text = input.text(len.value as usize)?;
        Some(Case {
            size: size.value as usize,
            fill: fill.value,
            line: line.value as usize,
            room: room.value as usize,
            how: how.value,
            first: first.value as usize,
            last: last.value as usize,
            xor: (xor.value % 256) as u8,
            text,
        })
    }
}

// FNV-1a.
fn checksum(bytes: &[u8]) -> u32 {
    let mut sum = 2166136261u32;
    for b in bytes {
        sum = (sum ^ u32::from(*b)).wrapping_mul(16777619);
    }
    sum
}

fn is_kept(out: &[u8], from: usize) -> bool {
    out.iter().skip(from).all(|b| *b == UNTOUCHED)
}

// The call on the first bytes of both buffers.
fn call(case: &Case<'_>, state: &mut [u8; PLACES], out: &mut [u8; ROOM]) -> Retuned {
    let (size, room) = (case.size.min(PLACES), case.room.min(ROOM));
    retune(case.text, case.line, &mut state[..size], &mut out[..room])
}

// How many bytes were written.
fn show_result(
    rt: &impl Print,
    reply: Result<usize, Refusal>,
    out: &[u8; ROOM],
) -> io::Result<usize> {
    match reply {
        Ok(n) => {
            let n = n.min(ROOM);
            print!(rt; "0 {n} {}", checksum(&out[..n]))?;
            Ok(n)
        }
        Err(refusal) => {
            print!(rt; "no {}", Numbered(refusal))?;
            Ok(0)
        }
    }
}

// A reply, and what became of both buffers.
fn show(rt: &impl Print, case: &Case<'_>, state: &mut [u8; PLACES]) -> io::Result<()> {
    let old = *state;
    let mut out = [UNTOUCHED; ROOM];
    let reply = call(case, state, &mut out);
    let written = show_result(rt, reply.result, &out)?;
    let changed = if *state == old { "same" } else { "new" };
    let kept = if is_kept(&out, written) {
        "kept"
    } else {
        "touched"
    };
    let behind = if state[KEPT..] == old[KEPT..] {
        ""
    } else {
        " behind"
    };
    println!(rt; " {} {changed} {kept}{behind}", reply.begun)
}

// A refusal keeps the answer buffer; what is written is admitted, and later bytes are kept; so are those behind a state.
fn holds(case: &Case<'_>, state: &mut [u8; PLACES]) -> bool {
    let old = *state;
    let mut out = [UNTOUCHED; ROOM];
    let reply = call(case, state, &mut out);
    let good = match reply.result {
        Ok(n) => {
            let n = n.min(ROOM);
            admission::admit(&out[..n]).is_ok() && is_kept(&out, n)
        }
        Err(_) => is_kept(&out, 0),
    };
    good && state[KEPT..] == old[KEPT..]
}

fn alter(case: &Case<'_>, state: &mut [u8; PLACES]) {
    for b in state.iter_mut().take(case.last).skip(case.first) {
        *b ^= case.xor;
    }
}

// With one byte altered.
fn holds_at(case: &Case<'_>, state: &[u8; PLACES], at: usize) -> bool {
    let mut altered = *state;
    for b in altered.iter_mut().skip(at).take(1) {
        *b ^= case.xor;
    }
    holds(case, &mut altered)
}

// Each byte alone.
fn show_each(rt: &impl Print, case: &Case<'_>, state: &[u8; PLACES]) -> io::Result<()> {
    let held = (case.first..case.last.min(PLACES)).filter(|&at| holds_at(case, state, at));
    println!(rt; "{} held", held.count())
}

fn replay(rt: &impl Print, case: &Case<'_>, state: &mut [u8; PLACES]) -> io::Result<()> {
    if case.fill != AS_LEFT {
        state.fill((case.fill % 256) as u8);
    }
    if case.how > ALTERED {
        return show_each(rt, case, state);
    }
    alter(case, state);
    if case.how == DECIDED {
        return show(rt, case, state);
    }
    println!(rt; "{}", if holds(case, state) { "held" } else { "broken" })
}

fn main(rt: HostRuntime) -> io::Result<()> {
    let mut buffer = [0u8; 786432];
    let mut state = [0u8; PLACES];
    for case in Cases::<Case>::read(&mut rt.stdin(), &mut buffer) {
        replay(&rt, &case, &mut state)?;
    }
    Ok(())
}
