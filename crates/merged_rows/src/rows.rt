// compact_candidate_rows: equal rows become one, with the number of assignments that have it.
ghost use Rattle.std.specs.Prelude.{◌≡◌, ◌<◌, nat_abs, ◌-ℤ◌, ◌≤ℤ◌, take};
ghost use Rattle.merged_rows.specs.RowsFrame.{InFrame, Framed, Moved, cell_of};
ghost use Rattle.merged_rows.specs.RowsCompacted.{Compacted};

// The grid of all rows: the least values of both sides, and how many values the right one has.
#[derive(Clone, Copy)]
pub struct Frame {
    pub x_low: i64,
    pub y_low: i64,
    pub y_span: usize,
}

// How far a value lies above the least one. As known_rows' `offset`, of the i64 that `linear_least` answers: this crate does not lean on known_rows.
fn above(x: i32, low: i64) -> usize
    requires { (low ≤ℤ x) × (nat_abs (x -ℤ low) < 32) }
    ensures { result ≡ nat_abs (x -ℤ low) }
{
    ((x as i64) - low) as usize
}

// The place of a row in the grid.
#[tactic(auto, using(crate::specs::RowsFrame::cell_lt), unfolding(crate::specs::RowsFrame::cell_of))]
fn cell(f: Frame, x: i32, y: i32, truth: u8) -> usize
    requires { InFrame f x y truth }
    ensures { (result ≡ cell_of f x y truth) × (result < 2048) }
{
    2 * (above(x, f.x_low) * f.y_span + above(y, f.y_low)) + (truth as usize)
}

// The distinct rows moved to the front, each with how many assignments it stands for; answers how many there are. What the counts were before does not matter.
// Asks for first rows that lie in the grid, which holds 2,048 cells. Document 01 names the flat arrays xs, ys and truth, and lends a slice of row
// records for the energy's sum alone: so no array of such records. No struct of the arrays with the counts: they are filled one by one, and searched as
// slices, without the counts.
pub fn compact_rows(
    f: Frame,
    rows: usize,
    xs: &mut [i32; 2048],
    ys: &mut [i32; 2048],
    truth: &mut [u8; 2048],
    counts: &mut [u16; 2048],
) -> usize
    requires { Framed f rows xs.old ys.old truth.old counts.old }
    ensures same { Compacted (take rows xs.old) (take rows ys.old) (take rows truth.old) (take result xs.new) (take result ys.new) (take result truth.new) (take result counts.new) }
    ensures moved { Moved rows result xs.new ys.new truth.new counts.new }
{
    // Where each met cell's row stands.
    let mut places: [Option<u16>; 2048] = [None; 2048];
    let mut n = 0;
    // By the index: rows move within the arrays that are read.
    for i in 0..rows {
        let x = xs[i];
        let y = ys[i];
        let bit = truth[i];
        let k = cell(f, x, y, bit);
        if let Some(p) = places[k] {
            counts[p as usize] += 1;
        } else {
            xs[n] = x;
            ys[n] = y;
            truth[n] = bit;
            counts[n] = 1;
            places[k] = Some(n as u16);
            n += 1;
        }
    }
    n
}
