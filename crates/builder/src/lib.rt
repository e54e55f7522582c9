// The builder of bootstrap tables from rows, a public entry. It leans on `rotation` and `known_rows`.
#![tactic(auto)]

ghost use Rattle.std.specs.Prelude.{◌≡◌, ◌≤◌, ltb, length};
ghost use Rattle.laws.specs.Over.{over};
ghost use Rattle.laws.specs.Test.{if◌then◌otherwise◌};
ghost use Rattle.rules.specs.Span.{least, span};
ghost use Rattle.rules.specs.Builder.{known_entries, with_table, no_table, built, from_known, builder, builder_reply};

use known_rows::{bounds_of, enter, span_of};
use rotation::{centre, complete, table_limits};
use rules::{Reason, Table};

// A table and its centre c answered: its bits written to `out`, if it reaches.
#[tactic(auto, using(laws::specs::Tests::tests), unfolding(laws::specs::Over::over))]
fn write_table(c: u8, table: &[u8], out: &mut [u8]) -> Result<Table, Reason>
    ensures { built (builder_reply result) out.new
        ≡ (if ltb (length out.old) (length table.now) then built (no_table 34) out.old
        otherwise built (with_table (length table.now) c) (over table.now out.old)) }
{
    if out.len() < table.len() {
        return Err(Reason::ShortTable);
    }
    out[..table.len()].copy_from_slice(table);
    Ok(Table {
        count: table.len(),
        centre: usize::from(c),
    })
}

// The completion of the rows' known entries with its centre, or why there is none; `table` is to work in, as long as the span.
// It and `low` come of the bounds, which the caller has for the span's test (31).
#[tactic(auto, unfolding(rules::specs::Builder::from_known))]
fn build_from_rows(
    size: usize,
    low: i32,
    values: &[i32],
    truths: &[u8],
    table: &mut [u8],
    out: &mut [u8],
) -> Result<Table, Reason>
    requires values_len { length values.now ≡ length truths.now }
    requires low_value { low ≡ least values.now }
    requires narrow { span values.now ≤ 32 }
    requires table_len { length table.old ≡ span values.now }
    ensures { built (builder_reply result) out.new ≡ from_known size out.old (known_entries values.now truths.now) }
{
    let known = enter(values, truths, low).ok_or(Reason::Conflict)?;
    if !complete(&known[..table.len()], size, table) {
        return Err(Reason::NoCompletion);
    }
    let c = centre(table, size);
    write_table(c, table, out)
}

// The bootstrap table of rows, a value and a truth each, and its centre: every refusal keeps `out`.
// Two lists, as C hands them and as document 01 refuses them (30).
pub fn composed_bootstrap_table(
    p: usize,
    m: usize,
    values: &[i32],
    truths: &[u8],
    out: &mut [u8],
) -> Result<Table, Reason>
    ensures { built (builder_reply result) out.new ≡ builder p m values.now truths.now out.old }
{
    if !table_limits(p, m) {
        return Err(Reason::BadSettings);
    }
    if values.len() != truths.len() || values.is_empty() {
        return Err(Reason::BadLengths);
    }
    let bounds = bounds_of(values);
    let length = span_of(bounds);
    if m < length {
        return Err(Reason::SpanOverM);
    }
    let mut table = [0u8; 32];
    build_from_rows(p, bounds.low, values, truths, &mut table[..length], out)
}
