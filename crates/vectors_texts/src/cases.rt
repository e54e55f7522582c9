// A case is a header line, LEN bytes of text and a newline; the header is `A LEN`, `C LEN`, `R LEN BITS COUNT` or
// `N LEN BITS COUNT`, BITS a digit for each byte handed in as a bit or `-` for none, COUNT the length of the lent buffer, filled with 7.
ghost use Rattle.std.specs.Prelude.{◌≡◌, ◌+◌, ◌≤◌, length, drop};

use crate::circuits::show_circuit;
use circuit::Circuit;
use rules::{RunError, Stats};
use std::fmt::Display;
use std::io::{self, Read, Write};
use vectors::{Numbered, number, read_full};

// Who answers a text.
#[derive(Clone, Copy)]
enum Kind {
    Admission,
    CircuitReader,
    CircuitRun,
    NetworkRun,
}

#[derive(Clone, Copy)]
pub struct Case<'a> {
    kind: Kind,
    bits: &'a [u8],
    count: usize,
    text: &'a [u8],
}

// By the header's first byte alone.
impl From<u8> for Kind {
    fn from(letter: u8) -> Kind {
        match letter {
            b'A' => Kind::Admission,
            b'C' => Kind::CircuitReader,
            b'N' => Kind::NetworkRun,
            _ => Kind::CircuitRun,
        }
    }
}

// A line of at most 128 bytes, its newline read and left out; empty at the input's end. By index, since each place is lent to the reader by itself.
fn read_line<'a, R: Read>(input: &mut R, line: &'a mut [u8; 128]) -> &'a [u8]
    ensures { length result.now ≤ 128 }
{
    for i in 0..128 {
        if read_full(input, &mut line[i..=i]) == 0 || line[i] == b'\n' {
            return &line[..i];
        }
    }
    &line[..]
}

// Past one byte, a space between two words.
fn past(word: &[u8]) -> &[u8]
    ensures { result.now ≡ drop 1 word.now }
{
    word.get(1..).unwrap_or(&[])
}

// At most 64 digits, and what comes after them, or after the one byte that stands for none.
fn digits(word: &[u8]) -> (&[u8], &[u8])
    ensures few { length result.0.now ≤ 64 }
    ensures shorter { length result.0.now + length result.1.now ≤ length word.now }
{
    let most = &word[..word.len().min(64)];
    match most.iter().position(|b| !b.is_ascii_digit()) {
        Some(0) => (&[], past(word)),
        Some(n) => word.split_at(n),
        None => word.split_at(most.len()),
    }
}

// The next case, of which the buffers hold the header and the text.
pub fn read_case<'a, R: Read>(
    input: &mut R,
    line: &'a mut [u8; 128],
    room: &'a mut [u8],
) -> Option<Case<'a>> {
    let header = read_line(input, line);
    let kind = Kind::from(*header.first()?);
    let (size, rest) = number(header.get(2..).unwrap_or(&[]));
    let (bits, rest) = digits(past(rest));
    let (count, _) = number(past(rest));
    let text = room.get_mut(..size as usize)?;
    read_full(input, text);
    read_full(input, &mut [0]);
    Some(Case {
        kind,
        bits,
        count: count as usize,
        text,
    })
}

// Admission's answer to a good network, in the order of its fields.
fn show_stats(out: &mut impl Write, s: Stats) -> io::Result<()> {
    write!(
        out,
        "0 {} {} {} {} {} {} ",
        s.inputs, s.sums, s.boots, s.sources, s.longest, s.norm
    )?;
    writeln!(
        out,
        "{} {} {} {} {}",
        s.outputs, s.depth, s.centre0, s.centre1, s.centre2
    )
}

// What stands in the lent buffer.
fn show_values<T: Display>(out: &mut impl Write, values: &[T]) -> io::Result<()> {
    write!(out, " |")?;
    for value in values {
        write!(out, " {value}")?;
    }
    writeln!(out)
}

// What a run answers: its count, or how it ended.
fn show_run(out: &mut impl Write, reply: Result<usize, RunError>) -> io::Result<()> {
    match reply {
        Ok(n) => write!(out, "0 {n}"),
        Err(RunError::Unreadable(refusal)) => write!(out, "no {}", Numbered(refusal)),
        Err(RunError::BadBits) => write!(out, "bits"),
        Err(RunError::ShortBuffer) => write!(out, "short"),
        Err(RunError::BrokenOff) => write!(out, "broken"),
    }
}

fn answer_admission(out: &mut impl Write, text: &[u8]) -> io::Result<()> {
    match admission::admit(text) {
        Ok(stats) => show_stats(out, stats),
        Err(refusal) => writeln!(out, "{}", Numbered(refusal)),
    }
}

fn answer_reader(out: &mut impl Write, text: &[u8]) -> io::Result<()> {
    let mut circuit = Circuit::new();
    match circuit::read(text, &mut circuit) {
        Ok(settings) => show_circuit(out, settings, &circuit),
        Err(refusal) => writeln!(out, "{}", Numbered(refusal)),
    }
}

// The bits that the digits stand for, as many as there are places. By `% 16`, since the runs are handed bytes over 1 too.
fn bits_of<'a>(digits: &[u8], places: &'a mut [u8; 64]) -> &'a [u8] {
    for (bit, digit) in places.iter_mut().zip(digits) {
        *bit = digit % 16;
    }
    &places[..digits.len().min(64)]
}

// A run into the lent buffer.
fn answer_run<T: Display, F: FnOnce(&mut [T]) -> Result<usize, RunError>>(
    out: &mut impl Write,
    lent: &mut [T],
    run: F,
) -> io::Result<()>
    requires { F.IsAlwaysCallable run }
{
    show_run(out, run(lent))?;
    show_values(out, lent)
}

// A run whose count is over 64 is answered by nothing.
pub fn answer(out: &mut impl Write, case: Case<'_>) -> io::Result<()> {
    let Case { text, count, .. } = case;
    let mut places = [0; 64];
    let bits = bits_of(case.bits, &mut places);
    match case.kind {
        Kind::Admission => answer_admission(out, text),
        Kind::CircuitReader => answer_reader(out, text),
        _ if count > 64 => Ok(()),
        Kind::NetworkRun => answer_run(
            out,
            &mut [7i64; 64][..count],
            |lent| network_run::run_network(text, bits, lent),
        ),
        Kind::CircuitRun => answer_run(
            out,
            &mut [7u8; 64][..count],
            |lent| circuit_run::run_circuit(text, bits, lent),
        ),
    }
}
