// What the service prints, in one buffer, so that the program writes it by one call: the answer to a job, or a refusal,
// and `(end)` behind it. It leans on `mapper` and `framing`.
#![tactic(auto)]

ghost use Rattle.std.specs.Prelude.{◌++◌, ◌≤◌, length, take};
ghost use Rattle.framing.specs.Step.{Within};
ghost use Rattle.framing.specs.Feeding.{said, closing};
ghost use Rattle.rules.specs.Refusal.{reason_number};
ghost use Rattle.rules.specs.Service.{end_line, refusal_text, mapper_answer};
ghost use Rattle.lines.specs.Front.{Written};
ghost use Rattle.answer.specs.Front.{Front};

use framing::Feed;
use lines::cursor::Cursor;
use mapper::map;
use rules::{Reason, Refusal};

// `(no NUMBER LINE)`; answers its length.
fn put_refusal(out: &mut [u8], r: Refusal) -> usize
    ensures { Written (refusal_text (reason_number r.reason) r.line) out.old result out.new }
{
    let number = r.reason.number();
    let mut cursor = Cursor { out, at: 0 };
    cursor.put_all(b"(no ");
    cursor.put_number(number);
    cursor.put(b' ');
    cursor.put_number(r.line);
    cursor.put_all(b")\n");
    cursor.at
}

// `(end)` behind the n bytes of an answer.
fn put_end(out: &mut [u8], n: usize) -> usize
    requires { (n ≤ 65536) × (65542 ≤ length out.old) }
    ensures { Front (take n out.old ++ end_line) result out.new }
{
    let mut cursor = Cursor { out, at: n };
    cursor.put_all(b"(end)\n");
    cursor.at
}

// A refusal with its `(end)`.
fn refuse(out: &mut [u8], r: Refusal) -> usize
    requires { 65542 ≤ length out.old }
    ensures { Front (refusal_text (reason_number r.reason) r.line ++ end_line) result out.new }
{
    let n = put_refusal(out, r);
    put_end(out, n)
}

// The mapper's answer to a job, with its `(end)`. The answer buffer has 65,536 bytes; the other six are for `(end)`.
fn answer_job(job: &[u8], out: &mut [u8]) -> usize
    requires { 65542 ≤ length out.old }
    ensures { Front (mapper_answer job.now ++ end_line) result out.new }
{
    match map(job, &mut out[..65536]) {
        Ok(n) => put_end(out, n),
        Err(r) => refuse(out, r),
    }
}

// What is printed behind a byte: nothing, or the answer to the job that it closes. `job` are the kept bytes.
// Slices with a least length: arrays of a fixed one would ask more of a caller.
pub fn say(closed: Option<Result<usize, Reason>>, job: &[u8], out: &mut [u8]) -> usize
    requires { Within closed × (32768 ≤ length job.now) × (65542 ≤ length out.old) }
    ensures { Front (said mapper_answer closed job.now) result out.new }
{
    match closed {
        None => 0,
        Some(Ok(n)) => answer_job(&job[..n], out),
        Some(Err(reason)) => refuse(out, Refusal::of_whole(reason)),
    }
}

// What is printed at the input's end. Here too an array would ask more of a caller.
#[tactic(auto, unfolding(framing::specs::Feeding::closing))]
pub fn say_at_end(f: Feed, out: &mut [u8]) -> usize
    requires { 65542 ≤ length out.old }
    ensures { Front (closing f) result out.new }
{
    if f.is_cut() {
        return refuse(out, Refusal::of_whole(Reason::NoForm));
    }
    0
}
