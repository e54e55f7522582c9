// The values of a linear form, one for each assignment of its sources, their span and the least of them. Its code leans on no other, its specs on those of `scale`.
// What a function asks of its coefficients (at most 11, each within 1984) is asked of a lent slice: a type of its own would be made for one call.
#![tactic(auto)]

ghost use Rattle.std.specs.Prelude.{◌≡◌, ◌≤◌, ◌^◌, length, nat_abs};
ghost use Rattle.laws.specs.Over.{over};
ghost use Rattle.rules.specs.Cone.{linear_table};
ghost use Rattle.rules.specs.Span.{least, span};
ghost use Rattle.scale.specs.Limits.{Within};
ghost use Rattle.linear.specs.Table.{shifted};

// Adds c to each value.
fn shift(part: &mut [i32], c: i32)
    requires { (nat_abs c ≤ 1984) × Within 21824 part.old }
    ensures { part.new ≡ shifted c part.old }
{
    for v in part {
        *v += c;
    }
}

// The linear form's value at each assignment, in the table's first entries: each coefficient doubles them.
pub fn linear_table(coefs: &[i64], table: &mut [i32])
    requires { (length coefs.now ≤ 11) × ((2 ^ length coefs.now ≤ length table.old) × Within 1984 coefs.now) }
    ensures { table.new ≡ over (linear_table coefs.now) table.old }
{
    table[0] = 0;
    let mut half = 1;
    for &c in coefs.iter().rev() {
        table.copy_within(..half, half);
        shift(&mut table[half..half + half], c as i32);
        half += half;
    }
}

// table_span of the linear form's table: the coefficients' absolute values added, plus 1.
pub fn linear_span(coefs: &[i64]) -> usize
    requires { (length coefs.now ≤ 11) × Within 1984 coefs.now }
    ensures { result ≡ span (linear_table coefs.now) }
{
    let mut sum = 1;
    for &c in coefs {
        sum += c.unsigned_abs() as usize;
    }
    sum
}

// The least value: the negative coefficients added.
pub fn linear_least(coefs: &[i64]) -> i64
    requires { (length coefs.now ≤ 11) × Within 1984 coefs.now }
    ensures { result ≡ least (linear_table coefs.now) }
{
    let mut sum = 0;
    for &c in coefs {
        sum += c.min(0);
    }
    sum
}

// How many assignments n sources have.
pub fn rows_of(n: usize) -> usize
    requires { n ≤ 11 }
    ensures { result ≡ 2 ^ n }
{
    1 << n
}
