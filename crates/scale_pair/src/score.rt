// The score of a scale pair, and which of two scores is better.
ghost use Rattle.std.specs.Prelude.{◌≡◌};
ghost use Rattle.scale_pair.specs.Score.{better_score};

use rules::Entry;

// Score::ordering with norm before energy (document 02, S-3): the first number in which they differ decides.
#[derive(Clone, Copy, PartialEq, Eq, PartialOrd, Ord)]
pub struct Rank {
    pub reuse: usize,
    pub span: usize,
    pub norm: u64,
    pub energy: u64,
    pub a: i64,
    pub b: i64,
}

// Score: what a pair that was found is ranked by, and the known entries of its table.
#[derive(Clone, Copy)]
pub struct Score {
    pub rank: Rank,
    pub known: [Entry; 32],
}

// The best so far gives way only to a lower score. bootstrap's `better_form` is the same over cones: one function for both would take the comparison as
// a closure, whose contract is longer than the match.
#[tactic(auto, unfolding(crate::specs::Score::better_score))]
pub fn better(best: Option<Score>, score: Score) -> Score
    ensures { result ≡ better_score best score }
{
    match best {
        None => score,
        Some(best) => { if score.rank < best.rank { score } else { best } },
    }
}
