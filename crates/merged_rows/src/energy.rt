// The energy of a scale pair: squared values summed over all rows, from three moments of the rows.
ghost use Rattle.std.specs.Prelude.{◌≡◌, ◌+◌, ◌-◌, ◌≤◌, ◌<◌, ◌^◌, pos, nat_abs, ◌+ℤ◌, ◌*ℤ◌, fold, length, take};
ghost use Rattle.laws.specs.Tabulate.{tabulate};
ghost use Rattle.merged_rows.specs.EnergyRows.{Small, Grown, NearRows, InRows, row_of, add_row, add_record, moments_of};

// Three sums over rows of the values x and y: of x², x·y and y². No ghost field says how large they are: `moments_of` and `add_row` make
// them by an equation, for any rows.
#[derive(Clone, Copy, Default)]
pub struct Moments {
    pub xx: i64,
    pub xy: i64,
    pub yy: i64,
}

// A compacted row: the two values, the gate's answer, and how many assignments have them.
#[derive(Clone, Copy)]
pub struct CandidateRow {
    pub x: i32,
    pub y: i32,
    pub truth: u8,
    pub count: u16,
}

// x·y for each of count assignments, added to a sum.
fn added(sum: i64, x: i32, y: i32, count: u16) -> i64
    requires { (nat_abs sum ≤ 2 ^ 40) × ((nat_abs x ≤ 31) × (nat_abs y ≤ 31)) }
    ensures { result ≡ sum +ℤ ((x *ℤ y) *ℤ pos count) }
{
    sum + (x as i64) * (y as i64) * (count as i64)
}

// One more row, which stands for count assignments. `few` tells the caller's proof that count, a u16, is below 2^16.
#[tactic(auto, unfolding(crate::specs::EnergyRows::add_row))]
fn with_row(moments: Moments, x: i32, y: i32, count: u16) -> Moments
    requires { Small moments × ((nat_abs x ≤ 31) × (nat_abs y ≤ 31)) }
    ensures row { result ≡ add_row moments x y count }
    ensures few { count < 2 ^ 16 }
{
    Moments {
        xx: added(moments.xx, x, x, count),
        xy: added(moments.xy, x, y, count),
        yy: added(moments.yy, y, y, count),
    }
}

// The moments of some rows more, which are lent as records (document 01 names the form).
fn row_moments(rows: &[CandidateRow], sums: Moments) -> Moments
    requires near { NearRows rows.now }
    requires room { (length rows.now ≤ 2048) × Grown (2048 - length rows.now) sums }
    ensures { result ≡ fold add_record sums rows.now }
{
    let mut moments = sums;
    for row in rows {
        moments = with_row(moments, row.x, row.y, row.count);
    }
    moments
}

// 8 rows from start on, as records: energy_moments lends its rows in blocks. Document 01 names all four fields, so the truth is filled in too,
// though no moment reads it.
fn pack_rows(
    xs: &[i32; 2048],
    ys: &[i32; 2048],
    truth: &[u8; 2048],
    counts: &[u16; 2048],
    start: usize,
) -> [CandidateRow; 8]
    requires { start + 8 ≤ 2048 }
    ensures { result ≡ tabulate 8 (λ j. row_of xs.now ys.now truth.now counts.now (start + j)) }
{
    std::array::from_fn(|j| CandidateRow {
        x: xs[start + j],
        y: ys[start + j],
        truth: truth[start + j],
        count: counts[start + j],
    })
}

// EnergyMoments::new: the sums of x², x·y and y² over the assignments that the first n rows stand for. Asks for values of at most 31 on either side of 0.
pub fn energy_moments(
    xs: &[i32; 2048],
    ys: &[i32; 2048],
    truth: &[u8; 2048],
    counts: &[u16; 2048],
    n: usize,
) -> Moments
    requires { InRows n xs.now ys.now counts.now }
    ensures { result ≡ moments_of (take n xs.now) (take n ys.now) (take n counts.now) }
{
    let mut moments = Moments::default();
    // By the block's number: over `(0..n).step_by(8)` (tried) the proof would have to be told that each start is a multiple of 8, by which a block ends
    // before 2,048 (`pack_rows`); `8 * block` says it.
    for block in 0..n.div_ceil(8) {
        let start = 8 * block;
        let rows = pack_rows(xs, ys, truth, counts, start);
        moments = row_moments(&rows[..(n - start).min(8)], moments);
    }
    moments
}
