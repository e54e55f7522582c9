// The service: circuits on standard input, each closed by a line `(end)`; each is answered on standard output as soon as
// that line has come, and before a later byte is looked at. It leans on `answer`, `framing` and std's reader and writer.
#![tactic(auto)]

ghost use Rattle.std.specs.Prelude.{true, ◌≡◌, IfOk};
ghost use Rattle.framing.specs.Feeding.{said, closing, fed_all, state_with};
ghost use Rattle.rules.specs.Service.{mapper_answer};
ghost use Rattle.service.specs.Chunk.{Led};

use framing::Feed;
use rules::Reason;
use std::io;
use std::io::Read;

// Writes what is said where a byte closes a job, if it does. Two functions, each with its own `requires`: this one says what
// text belongs to a job, the next one what belongs to the end.
fn write_said(
    rt: &impl Print,
    text: &[u8],
    closed: Option<Result<usize, Reason>>,
    job: &[u8],
) -> io::Result<()>
    requires { text.now ≡ said mapper_answer closed job.now }
{
    rt.write_all(text)
}

// Writes what is said at the input's end.
fn write_closing(rt: &impl Print, text: &[u8], feed: Feed) -> io::Result<()>
    requires { text.now ≡ closing feed }
{
    rt.write_all(text)
}

// What the program has between two bytes: what is known of the job, the bytes kept of it, and the room for an answer.
// Whole arrays, since memory is fixed and there is no heap: `feed` has the job's count, and `say` gives the answer's.
#[derive(Drop)]
struct Service {
    feed: Feed,
    job: [u8; 32768],
    out: [u8; 65542],
}

impl Service {
    fn new() -> Service {
        Service {
            feed: Feed::default(),
            job: [0; 32768],
            out: [0; 65542],
        }
    }

    // The bytes of one read.
    fn take_chunk(&mut self, rt: &impl Print, chunk: &[u8]) -> io::Result<()>
        ensures { IfOk result (λ done. state_with self.new.feed self.new.job ≡ fed_all (state_with self.old.feed self.old.job) chunk.now) }
    {
        for &b in chunk {
            let closed = self.feed.feed_byte(b, &mut self.job);
            let n = answer::say(closed, &self.job, &mut self.out);
            write_said(rt, &self.out[..n], closed, &self.job)?;
        }
        Ok(())
    }

    // One read, and whether more may come. A read error is the end of the input.
    fn take_read<R: Read>(
        &mut self,
        rt: &impl Print,
        input: &mut R,
        chunk: &mut [u8],
    ) -> io::Result<bool>
        ensures { IfOk result (λ more. more ≡ true → Led chunk.new (state_with self.old.feed self.old.job) (state_with self.new.feed self.new.job)) }
    {
        let n = input.read(chunk).unwrap_or(0);
        if n == 0 {
            let end = answer::say_at_end(self.feed, &mut self.out);
            write_closing(rt, &self.out[..end], self.feed)?;
            return Ok(false);
        }
        self.take_chunk(rt, &chunk[..n])?;
        Ok(true)
    }
}

// A proved loop has to end, so the turns have a bound that no run reaches.
fn main(rt: HostRuntime) -> io::Result<()> {
    let mut input = rt.stdin();
    let mut chunk = [0u8; 16384];
    let mut service = Service::new();
    for _ in 0..u64::MAX {
        if !service.take_read(&rt, &mut input, &mut chunk)? {
            return Ok(());
        }
    }
    Ok(())
}
