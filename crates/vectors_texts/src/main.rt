// Texts and their replies: each case on standard input is answered with one line. `cases` says how a case is laid out.
#![tactic(auto)]

mod cases;
mod circuits;

use arrayvec::ArrayVec;
use vectors::put;

// A proved loop has to end, so the cases are counted up to a number that no run reaches. Not by `Cases`: each case lies in the same buffers as the one
// before, and an iterator's items may be kept. A case prints less than 6,000 bytes, so the line has room for it.
fn main(rt: HostRuntime) {
    let mut input = rt.stdin();
    let mut header = [0u8; 128];
    let mut room = [0u8; 65536];
    let mut line = ArrayVec::<u8, 8192>::new();
    for _ in 0..u64::MAX {
        let Some(case) = cases::read_case(&mut input, &mut header, &mut room) else {
            break;
        };
        let _ = cases::answer(&mut line, case);
        put(&rt, &mut line);
    }
}
