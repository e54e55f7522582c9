// Numbers of a text, input by bytes and what several programs print, for programs that replay stored cases. It leans on `rules`.
#![tactic(auto)]

#[cfg(test)]
mod tests;

ghost use Rattle.std.specs.Prelude.{◌≡◌, ◌&&◌, ◌<◌, ◌≤◌, ℕ, List, [], Option, Some, length, take, drop, flat_map, position, leb, is_some, OnSome, IfSome, IfNone, ⊤};
ghost use Rattle.std.specs.Fmt.{decimal};
ghost use Rattle.std.specs.Iterator.{at_most};
ghost use Rattle.vectors.specs.Numbers.{numbers, Filled};
ghost use Rattle.vectors.specs.NumbersOrZero.{numbers_or_zero, row};
ghost use Rattle.vectors.specs.Token.{starts_number, from_start, read, digits, next_token, told, next_or_zero, number, signed_of};

use arrayvec::ArrayVec;
use rules::Refusal;
use std::fmt;
use std::io::Read;
use std::marker::PhantomData;

// A number of a text: its absolute value and its sign. No i64: a P or a length may be any u64.
#[derive(Clone, Copy, Default)]
pub struct Token {
    pub value: u64,
    pub negative: bool,
}

impl Token {
    // A 32-bit value; the least one where a number is too large.
    #[tactic(auto, unfolding(crate::specs::Token::signed_of))]
    pub fn signed(self) -> i32
        ensures { result ≡ signed_of self }
    {
        match i32::try_from(self.value) {
            Ok(v) if self.negative => -v,
            Ok(v) => v,
            Err(_) => i32::MIN,
        }
    }
}

// Where the next digit or minus stands.
fn next_start(text: &[u8]) -> Option<usize>
    ensures { result ≡ position starts_number text.now }
{
    text.iter().position(|b| *b == b'-' || b.is_ascii_digit())
}

// The number whose digits are in front, and what comes after them. No `split_at`: one loop finds where the digits end and that each is one, and its
// invariant is all of the proof.
pub fn number(text: &[u8]) -> (u64, &[u8])
    ensures read { read result.0 result.1.now ≡ digits 0 text.now }
    ensures shorter { length result.1.now ≤ length text.now }
{
    let mut value = 0u64;
    let mut rest = text;
    while let [b, after @ ..] = rest
        && b.is_ascii_digit()
    {
        value = value
            .saturating_mul(10)
            .saturating_add(u64::from(*b - b'0'));
        rest = after;
    }
    (value, rest)
}

// The numbers of a text, one after the other, with what is left of it.
#[derive(Drop)]
pub struct Tokens<'a> {
    pub rest: &'a [u8],
}

impl<'a> Iterator for Tokens<'a> {
    type Item = Token;

    ghost next_gives = { λ s r t. told r t.rest.now ≡ next_token s.rest.now };

    ghost remaining = { λ s. at_most (length s.rest.now) };

    #[tactic(auto, unfolding(crate::specs::Token::next_token))]
    fn next(&mut self) -> Option<Token> {
        let start = next_start(self.rest)?;
        let negative = self.rest[start] == b'-';
        let (value, rest) = number(&self.rest[start + usize::from(negative)..]);
        self.rest = rest;
        Some(Token { value, negative })
    }
}

impl<'a> Tokens<'a> {
    // The numbers of an input, as far as the buffer reaches.
    pub fn read<R: Read>(input: &mut R, buffer: &'a mut [u8]) -> Tokens<'a> {
        let n = read_full(input, buffer);
        Tokens { rest: &buffer[..n] }
    }

    // The next number; 0 where none is left, and then nothing of the text is.
    #[tactic(auto, unfolding(crate::specs::Token::next_or_zero))]
    pub fn next_or_zero(&mut self) -> Token
        ensures number { number result self.new.rest.now ≡ next_or_zero self.old.rest.now }
        ensures shorter { length self.new.rest.now ≤ length self.old.rest.now }
    {
        match self.next() {
            Some(token) => token,
            None => {
                self.rest = &[];
                Token::default()
            }
        }
    }

    // The next numbers into the list, where there are as many.
    pub fn fill(&mut self, list: &mut [Token]) -> Option<()>
        ensures numbers { Filled (numbers (length list.old) self.old.rest.now) result list.new self.new.rest.now }
        ensures shorter { OnSome result (length self.new.rest.now ≤ length self.old.rest.now) }
    {
        for token in list {
            *token = self.next()?;
        }
        Some(())
    }

    // The next numbers into the list, 0 for each that is missing.
    pub fn fill_or_zero(&mut self, list: &mut [Token])
        ensures numbers { row list.new self.new.rest.now ≡ numbers_or_zero (length list.old) self.old.rest.now }
        ensures shorter { length self.new.rest.now ≤ length self.old.rest.now }
    {
        for token in list {
            *token = self.next_or_zero();
        }
    }

    // The next n bytes from a digit or a minus on, whatever they are, where there are as many; else the text stays as it is.
    pub fn digits(&mut self, n: usize) -> Option<&'a [u8]>
        ensures there { is_some result ≡ (leb 1 (length (from_start self.old.rest.now)) && leb n (length (from_start self.old.rest.now))) }
        ensures digits { IfSome result (λ d. d.now ≡ take n (from_start self.old.rest.now)) }
        ensures rest { OnSome result (self.new.rest.now ≡ drop n (from_start self.old.rest.now)) }
        ensures kept { IfNone result (self.new.rest.now ≡ self.old.rest.now) }
        ensures shorter { OnSome result (length self.new.rest.now ≤ length self.old.rest.now) }
    {
        let start = next_start(self.rest)?;
        if self.rest.len() - start < n {
            return None;
        }
        Some(self.digits_or_fewer(n))
    }

    // The next n bytes from a digit or a minus on, whatever they are, or as many as are left.
    #[tactic(auto, unfolding(crate::specs::Token::from_start))]
    pub fn digits_or_fewer(&mut self, n: usize) -> &'a [u8]
        ensures digits { result.now ≡ take n (from_start self.old.rest.now) }
        ensures rest { self.new.rest.now ≡ drop n (from_start self.old.rest.now) }
        ensures shorter { length self.new.rest.now ≤ length self.old.rest.now }
    {
        let start = next_start(self.rest).unwrap_or(self.rest.len());
        let text = &self.rest[start..];
        let (digits, rest) = text.split_at(n.min(text.len()));
        self.rest = rest;
        digits
    }

    // The n bytes behind the next one, which ends the line and is not looked at.
    pub fn text(&mut self, n: usize) -> Option<&'a [u8]>
        ensures { OnSome result (length self.new.rest.now < length self.old.rest.now) }
    {
        let (text, rest) = self.rest.get(1..)?.split_at_checked(n)?;
        self.rest = rest;
        Some(text)
    }
}

// A case of a list, read from the numbers of its text. It uses up a byte, so the cases end.
pub trait FromTokens<'a>: Drop {
    // Holds of the text before a read, what was read and the text after it.
    ghost read_gives: { List ℕ → Option Self → List ℕ → Type 0 } = { λ _ _ _. ⊤ };

    fn read(input: &mut Tokens<'a>) -> Option<Self>
        ensures gives { read_gives input.old.rest.now result input.new.rest.now }
        ensures shorter { OnSome result (length input.new.rest.now < length input.old.rest.now) };
}

// The cases of an input, one after the other.
#[derive(Drop)]
pub struct Cases<'a, C> {
    input: Tokens<'a>,
    case: PhantomData<C>,
}

impl<'a, C: FromTokens<'a>> Cases<'a, C> {
    // As far as the buffer reaches.
    pub fn read<R: Read>(input: &mut R, buffer: &'a mut [u8]) -> Cases<'a, C> {
        Cases {
            input: Tokens::read(input, buffer),
            case: PhantomData,
        }
    }
}

impl<'a, C: FromTokens<'a>> Iterator for Cases<'a, C> {
    type Item = C;

    ghost next_gives = { λ s r t. C.read_gives s.input.rest.now r t.input.rest.now };

    ghost remaining = { λ s. at_most (length s.input.rest.now) };

    fn next(&mut self) -> Option<C> {
        C::read(&mut self.input)
    }
}

// Reads until the buffer is full or the input ends; how many bytes came. A read error is the end of the input.
pub fn read_full<R: Read>(input: &mut R, buffer: &mut [u8]) -> usize
    ensures { result ≤ length buffer.new }
{
    let mut done = 0;
    while done < buffer.len()
        && let got @ 1.. = input.read(&mut buffer[done..]).unwrap_or(0)
    {
        done += got;
    }
    done
}

// A refusal, printed as its number and its line. A type of its own, since `rules` prints nothing.
#[derive(Clone, Copy)]
pub struct Numbered(pub Refusal);

impl fmt::Display for Numbered {
    fn fmt<W: fmt::Write>(&self, f: &mut fmt::Formatter<W>) -> fmt::Result {
        let number = self.0.reason.number();
        let line = self.0.line;
        write!(f, "{number} {line}")
    }
}

// Bits, printed as digits.
#[derive(Clone, Copy)]
pub struct Bits<'a>(pub &'a [u8]);

impl fmt::Display for Bits<'_> {
    ghost output = { λ b. Some (flat_map decimal b.0.now) };

    fn fmt<W: fmt::Write>(&self, f: &mut fmt::Formatter<W>) -> fmt::Result {
        for bit in self.0 {
            write!(f, "{bit}")?;
        }
        Ok(())
    }
}

// What a case prints, written at once, which leaves room for the next one. A write that fails is let go: the output then differs from the listed one.
pub fn put<const N: usize>(rt: &impl Print, line: &mut ArrayVec<u8, N>)
    ensures { line.new.items ≡ [] }
{
    let _ = rt.write_all(line.as_slice());
    line.clear();
}
