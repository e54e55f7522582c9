// The basis of a composition: two cones over their sources together.
ghost use Rattle.std.specs.Prelude.{◌≡◌, ◌≤◌, length, take};
ghost use Rattle.theorems.specs.LinearTables.{total};

// Two cones laid over their sources together: the first n sources, and both rows of coefficients over them. The absolute values of a row add up to 31 at most.
// The lengths of both rows are said too: a proof does not know those of an array within a struct.
// Arrays with one count for the three: an `ArrayVec` each would have a count each, and the merged cone is made of such arrays.
#[derive(Clone, Copy)]
pub struct Basis {
    pub n: usize,
    pub support: [usize; 11],
    pub left: [i64; 11],
    pub right: [i64; 11],
    ghost left_long: { length left ≡ 11 },
    ghost right_long: { length right ≡ 11 },
    ghost few: { n ≤ 11 },
    ghost narrow_left: { total (take n left) ≤ 31 },
    ghost narrow_right: { total (take n right) ≤ 31 },
}

impl Basis {
    // The sources.
    pub fn sources(&self) -> &[usize]
        ensures are { result.now ≡ take self.now.n self.now.support }
        ensures count { length result.now ≡ self.now.n }
    {
        &self.support[..self.n]
    }

    // The left coefficients.
    pub fn left(&self) -> &[i64]
        ensures are { result.now ≡ take self.now.n self.now.left }
        ensures count { length result.now ≡ self.now.n }
    {
        &self.left[..self.n]
    }

    // The right coefficients.
    pub fn right(&self) -> &[i64]
        ensures are { result.now ≡ take self.now.n self.now.right }
        ensures count { length result.now ≡ self.now.n }
    {
        &self.right[..self.n]
    }
}
