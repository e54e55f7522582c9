// Sources: whether all are different, those of two cones together, and the masks by which a row of one moves to its next row over them.
// It leans on no other code.
#![tactic(auto)]

ghost use Rattle.std.specs.Prelude.{◌≡◌, map, ℕ, ◌+◌, ◌≤◌, ◌<◌, ◌^◌, ◌==◌, length, take, get_or};
ghost use Rattle.std.specs.List.{position as first_place};
ghost use Rattle.rules.specs.Composition.{union_support};
ghost use Rattle.rules.specs.NetworkText.{all_different};
ghost use Rattle.rules.specs.Store.{coefficient_of};
ghost use Rattle.theorems.specs.Terms.{terms_over};
ghost use Rattle.support.specs.Rows.{hit_mask, toggle_mask};

// The sources of a cone, or of two together: the first n; 0 past them. No ArrayVec, since compose's Basis has one count for three such arrays.
#[derive(Clone, Copy)]
pub struct Support {
    pub n: usize,
    pub nodes: [usize; 11],
}

// No node stands twice.
#[tactic(auto, unfolding(rules::specs::NetworkText::all_different))]
pub fn are_different(nodes: &[usize]) -> bool
    ensures { result ≡ all_different nodes.now }
{
    let mut rest = nodes;
    while let Some((first, others)) = rest.split_first() {
        if others.contains(first) {
            return false;
        }
        rest = others;
    }
    true
}

// Where the node stands first, if it stands there.
fn place(nodes: &[usize], node: usize) -> Option<usize>
    ensures { result ≡ first_place (λ n. n == node) nodes.now }
{
    nodes.iter().position(|&n| n == node)
}

// union_support_size: how many sources two cones have together.
pub fn union_support_size(left: &[usize], right: &[usize]) -> usize
    requires { length left.now + length right.now < 2 ^ 32 }
    ensures { result ≡ length (union_support left.now right.now) }
{
    left.len() + right.iter().filter(|n| !left.contains(n)).count()
}

// The left sources.
fn left_support(left: &[usize]) -> Support
    requires { length left.now ≤ 11 }
    ensures { (result.n ≡ length left.now) × (take result.n result.nodes ≡ left.now) }
{
    let n = left.len();
    let mut nodes = [0; 11];
    nodes[..n].copy_from_slice(left);
    Support { n, nodes }
}

// union_support: the left sources, and after them the right ones that are not among them.
pub fn union_support(left: &[usize], right: &[usize]) -> Support
    requires { length (union_support left.now right.now) ≤ 11 }
    ensures { (result.n ≡ length (union_support left.now right.now)) × (take result.n result.nodes ≡ union_support left.now right.now) }
{
    let mut s = left_support(left);
    for &node in right {
        if !left.contains(&node) {
            s.nodes[s.n] = node;
            s.n += 1;
        }
    }
    s
}

// coefficient_pair, one side of it: the coefficient of a node; 0 where it is no source, which is its coefficient in the sum.
pub fn coefficient(sources: &[usize], coefs: &[i64], node: usize) -> i64
    requires { length sources.now ≡ length coefs.now }
    ensures { result ≡ coefficient_of (terms_over coefs.now sources.now) node }
{
    place(sources, node).map_or(0, |at| coefs[at])
}

// The coefficients of the nodes of a support.
pub fn coefficients_over(support: &[usize], sources: &[usize], coefs: &[i64]) -> [i64; 11]
    requires { (length support.now ≤ 11) × (length sources.now ≡ length coefs.now) }
    ensures { take (length support.now) result ≡ map (coefficient_of (terms_over coefs.now sources.now)) support.now }
{
    let mut r = [0; 11];
    // An index: of a zip over `iter_mut` the proof learns nothing of what was written (docs/proof-notes.md), and `from_fn` would go over the
    // places behind the support too.
    for (i, &node) in support.iter().enumerate() {
        r[i] = coefficient(sources, coefs, node);
    }
    r
}

// For each digit of a row over the support, counted from the lowest, the bit of the sources' row that it stands for. There are 12:
// of 11 digits, the last row's number plus 1 has 11 trailing zeros.
fn source_masks(support: &[usize], sources: &[usize]) -> [usize; 12]
    requires { (length support.now ≤ 11) × (length sources.now ≤ 11) }
    ensures { (z : ℕ) → z < 12 → get_or result z 0 ≡ hit_mask support.now sources.now z }
{
    let mut masks = [0; 12];
    // It doubles from source to source: 2 to the number of those passed, as the proof has it.
    let mut bit = 1;
    for &source in sources.iter().rev() {
        if let Some(at) = place(support, source) {
            masks[support.len() - at - 1] |= bit;
        }
        bit += bit;
    }
    masks
}

// Each mask with all lower ones: what the next row changes, where its number has so many trailing zeros.
pub fn toggle_masks(support: &[usize], sources: &[usize]) -> [usize; 12]
    requires { (length support.now ≤ 11) × (length sources.now ≤ 11) }
    ensures { (z : ℕ) → z < 12 → get_or result z 0 ≡ toggle_mask support.now sources.now z }
{
    let mut masks = source_masks(support, sources);
    for digit in 1..12 {
        masks[digit] |= masks[digit - 1];
    }
    masks
}
