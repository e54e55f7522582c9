// Maps the circuits of standard input, each closed by an `(end)` line, into buffers that are long enough and too short.
// For each: the answer with its `(end)`, then a line that says what every buffer got.
#![tactic(auto)]

ghost use Rattle.std.specs.Prelude.{◌≡◌, ◌==◌, ◌≤◌, nat_eq, length, drop, replicate};
ghost use Rattle.std.specs.List.{list_all, starts_with};
ghost use Rattle.framing.specs.Feeding.{state_with, fed_all};

use framing::Feed;
use rules::Refusal;
use std::io;
use vectors::{Numbered, read_full};

// Every byte of a buffer before it is lent: no text has it.
const UNTOUCHED: u8 = 165;

// A buffer as it is before it is lent.
fn untouched() -> [u8; 65536]
    ensures { result ≡ replicate 65536 165 }
{
    [UNTOUCHED; 65536]
}

// The bytes from a place on are as they were before the buffer was lent.
fn is_kept(out: &[u8], from: usize) -> bool
    ensures { result ≡ list_all (λ b. b == 165) (drop from out.now) }
{
    out.iter().skip(from).all(|b| *b == UNTOUCHED)
}

// The buffer begins with the network.
fn is_same(network: &[u8], out: &[u8]) -> bool
    ensures { result ≡ starts_with nat_eq out.now network.now }
{
    out.starts_with(network)
}

// A reply's number with its count or line, and whether what no answer was written on is kept.
fn show_reply(rt: &impl Print, reply: Result<usize, Refusal>, out: &[u8]) -> io::Result<()> {
    let (number, value, written) = match reply {
        Ok(n) => (0, n, n),
        Err(refusal) => (refusal.reason.number(), refusal.line, 0),
    };
    let state = if is_kept(out, written) {
        "kept"
    } else {
        "touched"
    };
    print!(rt; "{number} {value} {state}")
}

// The same text into the first k bytes of a buffer, and whether an answer is the first one.
fn map_again(rt: &impl Print, text: &[u8], network: &[u8], k: usize) -> io::Result<()>
    requires { k ≤ 65536 }
{
    let mut out = untouched();
    let reply = mapper::map(text, &mut out[..k]);
    print!(rt; " | ")?;
    show_reply(rt, reply, &out)?;
    if reply.is_ok() {
        let same = if is_same(network, &out) {
            "same"
        } else {
            "other"
        };
        print!(rt; " {same}")?;
    }
    Ok(())
}

// Into buffers of no byte, one too few, as many as the network has, and one more.
fn map_shorter(rt: &impl Print, text: &[u8], network: &[u8]) -> io::Result<()> {
    let n = network.len();
    map_again(rt, text, network, 0)?;
    for k in n.saturating_sub(1)..=n.saturating_add(1).min(65536) {
        map_again(rt, text, network, k)?;
    }
    Ok(())
}

fn replay(rt: &impl Print, text: &[u8]) -> io::Result<()> {
    let mut out = untouched();
    let reply = mapper::map(text, &mut out);
    match reply {
        Ok(n) => {
            let network = &out[..n.min(65536)];
            rt.write_all(network)?;
            println!(rt; "(end)")?;
            show_reply(rt, reply, &out)?;
            map_shorter(rt, text, network)?;
        }
        Err(refusal) => {
            println!(rt; "(no {})\n(end)", Numbered(refusal))?;
            show_reply(rt, reply, &out)?;
            map_again(rt, text, b"", 0)?;
        }
    }
    println!(rt)
}

// A job that is closed is replayed. A write that fails is let go: the output then differs from the listed one.
fn take_bytes(rt: &impl Print, feed: &mut Feed, bytes: &[u8], job: &mut [u8])
    requires { 32768 ≤ length job.old }
    ensures { state_with feed.new job.new ≡ fed_all (state_with feed.old job.old) bytes.now }
{
    for b in bytes {
        if let Some(Ok(n)) = feed.feed_byte(*b, job) {
            let _ = replay(rt, &job[..n]);
        }
    }
}

// A proved loop has to end: no input has as many parts.
fn main(rt: HostRuntime) {
    let mut job = [0u8; 65536];
    let mut bytes = [0u8; 4096];
    let mut feed = Feed::default();
    for _ in 0..u64::MAX {
        let n = read_full(&mut rt.stdin(), &mut bytes);
        if n == 0 {
            break;
        }
        take_bytes(&rt, &mut feed, &bytes[..n], &mut job);
    }
}
