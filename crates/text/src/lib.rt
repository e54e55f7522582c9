// The pieces of a text: where its first line ends, words, names, bits and numbers, each read from the front of some bytes and
// handed on with the bytes that are left. It leans on no other code.
#![tactic(auto)]

ghost use Rattle.std.specs.Prelude.{◌≡◌, ◌-◌, min, ℕ, Bool, List};
ghost use Rattle.rules.specs.Form.{exactly, is_digit, is_name_byte, is_bit_byte, is_name, is_number, is_bits, name, bits, run_of, number, value_from, bits_from};
ghost use Rattle.text.specs.Capped.{capped};
ghost use Rattle.text.specs.FirstLine.{first_line, after_line};
ghost use Rattle.text.specs.Pieces.{passed, piece, part, part_as};
ghost use Rattle.text.specs.Number.{cap_number};

// The first line, its newline with it, and what is left.
pub fn split_line(s: &[u8]) -> (&[u8], &[u8])
    ensures line { result.0.now ≡ first_line s.now }
    ensures rest { result.1.now ≡ after_line s.now }
{
    let end = s.iter().position(|&b| b == b'\n').unwrap_or(s.len());
    s.split_at((end + 1).min(s.len()))
}

// The word w.
#[tactic(auto, using(crate::proofs::Word::word_found))]
pub fn read_word<'a>(s: &'a [u8], w: &[u8]) -> Option<&'a [u8]>
    ensures { passed result ≡ exactly w.now s.now }
{
    s.strip_prefix(w)
}

#[tactic(auto, unfolding(rules::specs::Form::is_name_byte))]
fn is_name_byte(b: u8) -> bool
    ensures { result ≡ is_name_byte b }
{
    matches!(b, b'a'..=b'z' | b'0'..=b'9' | b'_')
}

#[tactic(auto, unfolding(rules::specs::Form::is_bit_byte))]
fn is_bit_byte(b: u8) -> bool
    ensures { result ≡ is_bit_byte b }
{
    matches!(b, b'0' | b'1')
}

#[tactic(auto, unfolding(rules::specs::Form::is_name))]
fn is_name(w: &[u8]) -> bool
    ensures { result ≡ is_name w.now }
{
    matches!(w.len(), 1..=16)
}

#[tactic(auto, unfolding(rules::specs::Form::is_number))]
fn is_number(w: &[u8]) -> bool
    ensures { result ≡ is_number w.now }
{
    w.len() == 1 || !w.is_empty() && w[0] != b'0'
}

// Whether a run of bits has one at least.
#[tactic(auto, unfolding(rules::specs::Form::is_bits))]
fn is_bits(w: &[u8]) -> bool
    ensures { result ≡ is_bits w.now }
{
    !w.is_empty()
}

// The bytes at the front that are of a kind, if they are good ones, and what is left.
fn read_run<'a, F: Fn(u8) -> bool, G: Fn(&[u8]) -> bool>(
    s: &'a [u8],
    is_kind: F,
    is_good: G,
) -> Option<(&'a [u8], &'a [u8])>
    requires kind { F.IsAlwaysCallable is_kind }
    requires good { G.IsAlwaysCallable is_good }
    ensures { (f : ℕ → Bool) (g : List ℕ → Bool) → ((b : ℕ) (r : Bool) → F.post is_kind b r → r ≡ f b)
        → ((w : _) (r : Bool) → G.post is_good w r → r ≡ g w.now) → part result ≡ run_of f g s.now }
{
    let end = s.iter().position(|&b| !is_kind(b)).unwrap_or(s.len());
    let (run, rest) = s.split_at(end);
    is_good(run).then_some((run, rest))
}

// A name of 1 to 16 bytes.
#[tactic(auto, unfolding(rules::specs::Form::name))]
pub fn read_name(s: &[u8]) -> Option<(&[u8], &[u8])>
    ensures { part result ≡ name s.now }
{
    read_run(s, is_name_byte, is_name)
}

// One or more bits, as they stand in the text.
#[tactic(auto, using(crate::proofs::Run::bits_taken), unfolding(rules::specs::Form::bits))]
pub fn read_bits(s: &[u8]) -> Option<(&[u8], &[u8])>
    ensures { part_as bits_from result ≡ bits s.now }
{
    read_run(s, is_bit_byte, is_bits)
}

// The digits of a number: 0, or digits without a leading zero.
#[tactic(auto, unfolding(rules::specs::Form::is_digit))]
pub fn read_digits(s: &[u8]) -> Option<(&[u8], &[u8])>
    ensures { part result ≡ run_of is_digit is_number s.now }
{
    read_run(s, |b| b.is_ascii_digit(), is_number)
}

// A digit's value, from its byte.
pub fn digit_of(b: u8) -> u8
    ensures { result ≡ b - 48 }
{
    b.saturating_sub(b'0')
}

// The value of some digits; 65536 stands for all values that are more.
#[tactic(auto, using(crate::proofs::Number::value_more), unfolding(rules::specs::Form::value_from))]
pub fn value_of(digits: &[u8]) -> usize
    ensures { result ≡ min 65536 (value_from 0 digits.now) }
{
    let mut v = 0;
    for b in digits {
        v = (10 * v + usize::from(digit_of(*b))).min(65536);
    }
    v
}

// A number; 65536 stands for all values that are more.
#[tactic(auto, unfolding(rules::specs::Form::number, rules::specs::Form::onward, crate::specs::Capped::capped))]
pub fn read_number(s: &[u8]) -> Option<(usize, &[u8])>
    ensures { piece result ≡ capped cap_number (number s.now) }
{
    let (digits, rest) = read_digits(s)?;
    Some((value_of(digits), rest))
}
