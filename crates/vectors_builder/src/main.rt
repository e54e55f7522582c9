// Replays the table builder on the cases of standard input, a line of numbers each:
// P, M, the answer buffer's length, the count of values and the values, the count of truths and the truths.
// For each case it writes the refusal's number, or 0, the count, the centre and the buffer, whose bytes were letters before.
#![tactic(auto)]

ghost use Rattle.std.specs.Prelude.{◌≡◌, map, ◌≤◌, length};
ghost use Rattle.rules.specs.Builder.{builder};
ghost use Rattle.vectors.specs.NumbersOrZero.{numbers_or_zero};
ghost use Rattle.vectors.specs.Token.{signed_of};
ghost use Rattle.vectors_builder.specs.Filled.{Filled};
ghost use Rattle.vectors_builder.specs.Shown.{byte_of, shown_byte};

use std::io;
use vectors::{Cases, FromTokens, Token, Tokens};

// The first `count` of these are the values of a case. No ArrayVec: `fill_values` writes over places that are there.
#[derive(Drop)]
struct Values {
    count: usize,
    list: [i32; 64],
    ghost within: { count ≤ 64 },
}

// As the values.
#[derive(Drop)]
struct Truths {
    count: usize,
    list: [u8; 64],
    ghost within: { count ≤ 64 },
}

// The next numbers into the list, 0 for each that is missing.
fn fill_values(input: &mut Tokens<'_>, values: &mut [i32])
    ensures values { Filled signed_of (numbers_or_zero (length values.old) input.old.rest.now) values.new input.new.rest.now }
    ensures shorter { length input.new.rest.now ≤ length input.old.rest.now }
{
    for value in values {
        *value = input.next_or_zero().signed();
    }
}

// As `fill_values`.
fn fill_truths(input: &mut Tokens<'_>, truths: &mut [u8])
    ensures truths { Filled byte_of (numbers_or_zero (length truths.old) input.old.rest.now) truths.new input.new.rest.now }
    ensures shorter { length input.new.rest.now ≤ length input.old.rest.now }
{
    for truth in truths {
        *truth = byte(input.next_or_zero());
    }
}

impl Values {
    ghost use Rattle.std.specs.Prelude.{◌≤◌, length, take};
    ghost use Rattle.vectors.specs.Token.{signed_of};
    ghost use Rattle.vectors_builder.specs.Filled.{Filled, numbers_of};

    // Behind its count, of which 64 numbers are read at most.
    #[tactic(auto, unfolding(crate::specs::Filled::numbers_of))]
    fn read(input: &mut Tokens<'_>) -> Values
        ensures values { Filled signed_of (numbers_of input.old.rest.now) (take result.count result.list) input.new.rest.now }
        ensures shorter { length input.new.rest.now ≤ length input.old.rest.now }
    {
        let count = input.next_or_zero().value.min(64) as usize;
        let mut list = [0; 64];
        fill_values(input, &mut list[..count]);
        Values { count, list }
    }
}

impl Truths {
    ghost use Rattle.std.specs.Prelude.{◌≤◌, length, take};
    ghost use Rattle.vectors_builder.specs.Filled.{Filled, numbers_of};
    ghost use Rattle.vectors_builder.specs.Shown.{byte_of};

    // As the values.
    #[tactic(auto, unfolding(crate::specs::Filled::numbers_of))]
    fn read(input: &mut Tokens<'_>) -> Truths
        ensures truths { Filled byte_of (numbers_of input.old.rest.now) (take result.count result.list) input.new.rest.now }
        ensures shorter { length input.new.rest.now ≤ length input.old.rest.now }
    {
        let count = input.next_or_zero().value.min(64) as usize;
        let mut list = [0; 64];
        fill_truths(input, &mut list[..count]);
        Truths { count, list }
    }
}

#[derive(Drop)]
struct Case {
    p: usize,
    m: usize,
    room: usize,
    values: Values,
    truths: Truths,
    ghost within: { room ≤ 40 },
}

impl<'a> FromTokens<'a> for Case {
    ghost use Rattle.vectors_builder.specs.Case.{case_of, case_read};

    ghost read_gives = { λ s r t. case_read r t ≡ case_of s };

    #[tactic(auto, unfolding(crate::specs::Case::case_of))]
    fn read(input: &mut Tokens<'a>) -> Option<Case> {
        let p = input.next()?.value as usize;
        let m = input.next_or_zero().value as usize;
        let room = input.next_or_zero().value.min(40) as usize;
        let values = Values::read(input);
        let truths = Truths::read(input);
        Some(Case {
            p,
            m,
            room,
            values,
            truths,
        })
    }
}

fn byte(n: Token) -> u8
    ensures { result ≡ byte_of n }
{
    u8::try_from(n.value).unwrap_or(255)
}

// A byte 0 or 1 as a digit.
fn shown(b: u8) -> u8
    ensures { result ≡ shown_byte b }
{
    if b < 2 { b + b'0' } else { b }
}

fn as_digits(out: &mut [u8])
    ensures { out.new ≡ map shown_byte out.old }
{
    for b in out {
        *b = shown(*b);
    }
}

// The builder on a case, and what it answers.
fn run(
    rt: &impl Print,
    p: usize,
    m: usize,
    values: &[i32],
    truths: &[u8],
    out: &mut [u8],
) -> io::Result<()>
    ensures { out.new ≡ map shown_byte (builder p m values.now truths.now out.old).buffer }
{
    let reply = builder::composed_bootstrap_table(p, m, values, truths, out);
    as_digits(out);
    let (number, count, centre) = match reply {
        Ok(table) => (0, table.count, table.centre),
        Err(reason) => (reason.number(), 0, 0),
    };
    print!(rt; "{number} {count} {centre} ")?;
    rt.write_all(out)?;
    println!(rt)
}

fn replay(rt: &impl Print, case: &Case) -> io::Result<()> {
    let mut buffer = *b"abcdefghijklmnopqrstuvwxyzabcdefghijklmn";
    run(
        rt,
        case.p,
        case.m,
        &case.values.list[..case.values.count],
        &case.truths.list[..case.truths.count],
        &mut buffer[..case.room],
    )
}

// A write that fails is let go: the output then differs from the listed one.
fn main(rt: HostRuntime) {
    let mut buffer = [0u8; 65536];
    for case in Cases::<Case>::read(&mut rt.stdin(), &mut buffer) {
        let _ = replay(&rt, &case);
    }
}
