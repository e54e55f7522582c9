// The service's framing: jobs cut out of a stream of bytes, each closed by a line that is exactly `(end)`. Of other code it takes `rules` alone.
#![tactic(auto)]

ghost use Rattle.std.specs.Prelude.{◌≡◌, ltb, set};
ghost use Rattle.framing.specs.Step.{start, next_match, closed_by, fed_to, fed, Within};

use rules::Reason;

const END: [u8; 5] = *b"(end)";

// The most bytes that a job may have.
const LIMIT: usize = 32768;

// What is known of the bytes since the last job. Both counts stop at one over the limit, so that no input is too long for them.
#[derive(Clone, Copy)]
pub struct Feed {
    // How many bytes have come. The caller's buffer keeps them: an `ArrayVec` there would fix its room, and any lent buffer will do.
    pub count: usize,
    // How many of them stand before the current line.
    pub line: usize,
    // How many bytes the current line has, if they are the first of `(end)`.
    pub matched: Option<usize>,
}

// Nothing has come since the last job.
impl Default for Feed {
    fn default() -> Feed
        ensures { result ≡ start }
    {
        Feed {
            count: 0,
            line: 0,
            matched: Some(0),
        }
    }
}

impl Feed {
    // Whether input that ends here stops after bytes but before an `(end)`.
    pub fn is_cut(&self) -> bool
        ensures { result ≡ ltb 0 self.now.count }
    {
        0 < self.count
    }

    // One byte. `job` keeps the bytes since the last job and wants 32,768 places. Where the byte closes a job: how many bytes
    // it has, from the first that was kept, or that they are too many.
    #[tactic(auto, using(crate::specs::Step::fed_closes, crate::specs::Step::fed_newline, crate::specs::Step::fed_on))]
    pub fn feed_byte(&mut self, b: u8, job: &mut [u8]) -> Option<Result<usize, Reason>>
        ensures step { fed_to self.new result job.new ≡ fed self.old b job.old }
        ensures within { Within result }
    {
        if b == b'\n' && self.matched == Some(END.len()) {
            let n = self.line;
            *self = Feed::default();
            return Some(closed(n));
        }
        keep(job, self.count, b);
        self.count = self.count.saturating_add(1).min(LIMIT + 1);
        if b == b'\n' {
            self.line = self.count;
            self.matched = Some(0);
        } else {
            self.matched = next_match(self.matched, b);
        }
        None
    }
}

// The byte after `at` others of the job; past the array it is kept nowhere. (`get_mut` tells nothing of the array where it has no such place.)
#[tactic(auto, using(std::proofs::lemmas::List::set_past))]
fn keep(job: &mut [u8], at: usize, b: u8)
    ensures { job.new ≡ set job.old at b }
{
    if at < job.len() {
        job[at] = b;
    }
}

// A job of n bytes is closed.
fn closed(n: usize) -> Result<usize, Reason>
    ensures { result ≡ closed_by n }
{
    if n <= LIMIT {
        Ok(n)
    } else {
        Err(Reason::TooMany)
    }
}

// What is matched with a byte more that is no newline. No `then_some`: it adds 1 first, and of m nothing is known where the byte does not match.
#[tactic(auto, unfolding(crate::specs::Step::next_match, crate::specs::Step::end_word))]
fn next_match(matched: Option<usize>, b: u8) -> Option<usize>
    ensures { result ≡ next_match matched b }
{
    let m = matched?;
    if END.get(m) == Some(&b) {
        Some(m + 1)
    } else {
        None
    }
}
