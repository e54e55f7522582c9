// `(lin CONST (COEF ID) ..)`: its terms, of which a good sum has 1 to 11.
ghost use Rattle.std.specs.Prelude.{◌≡◌, ◌≢◌, ◌<◌, ◌≤◌, ◌↔◌, IsTrue, IfSome, All, nat_abs, length};
ghost use Rattle.rules.specs.Form.{many};
ghost use Rattle.text.specs.Capped.{capped};
ghost use Rattle.text.specs.Decimal.{Decimal};
ghost use Rattle.text.specs.Pieces.{piece_as};
ghost use Rattle.nodes.specs.Terms.{terms_in};
ghost use Rattle.network_text.specs.Terms.{term_of, cap_coef, spaced_term, good_list, Next, GoodNext, SumRead};

use arrayvec::ArrayVec;
use forms::read_signed;
use nodes::terms::{Summand, Terms};
use packed::short::Short;
use text::{read_digits, read_word, value_of};

// A space and `(COEF ID)`: the coefficient and the node's digits.
#[tactic(auto, using(text::specs::Decimal::digits_decimal), unfolding(crate::specs::Readers::readers))]
fn read_term(s: &[u8]) -> Option<((i64, &[u8]), &[u8])>
    ensures same { piece_as term_of result ≡ capped cap_coef (spaced_term s.now) }
    ensures digits { IfSome result (λ p. Decimal p.0.1.now) }
{
    let s = read_word(s, b" ")?;
    let s = read_word(s, b"(")?;
    let (coef, s) = read_signed(s)?;
    let s = read_word(s, b" ")?;
    let (digits, s) = read_digits(s)?;
    let s = read_word(s, b")")?;
    Some(((coef, digits), s))
}

// Within -31..31.
fn is_small(z: i64) -> bool
    ensures { IsTrue result ↔ (nat_abs z ≤ 31) }
{
    z.unsigned_abs() <= 31
}

// The sum so far, and the digits of its nodes: two lists, since the terms are handed on without their digits.
#[derive(Drop)]
struct SoFar<'a> {
    sum: Terms,
    nodes: ArrayVec<&'a [u8], 11>,
}

impl<'a> SoFar<'a> {
    // A node's number is kept up to 65536 only, so two nodes are compared by their digits.
    fn is_new(&self, digits: &[u8]) -> bool
        ensures { IsTrue result ↔ All (λ w. w.now ≢ digits.now) self.now.nodes.items }
    {
        self.nodes.iter().all(|&node| node != digits)
    }

    // With this term it may be a good one.
    fn takes(&self, coef: i64, digits: &[u8]) -> bool
        ensures { IsTrue result ↔ GoodNext self.now coef digits.now }
    {
        self.nodes.len() < 11 && coef != 0 && is_small(coef) && self.is_new(digits)
    }

    fn push(&mut self, coef: i64, digits: &'a [u8])
        requires { (length self.old.sum.terms.items < 11) × (length self.old.nodes.items < 11) }
        ensures { Next self.old coef digits.entry self.new }
    {
        let node = value_of(digits);
        self.sum.terms.push(Summand { coef, node });
        self.nodes.push(digits);
    }
}

// The terms at the front, if they are those of a good sum.
fn read_terms(constant: i64, s: &[u8]) -> Option<(Terms, &[u8])>
    requires { nat_abs constant ≤ 31 }
    ensures same { piece_as terms_in result ≡ good_list (many spaced_term s.now) }
    ensures kept { IfSome result (λ p. (p.0.constant ≡ constant) × (length p.0.terms.items ≤ 11)) }
{
    let mut t = SoFar {
        sum: Terms {
            constant,
            terms: Short::new(),
        },
        nodes: ArrayVec::new(),
    };
    let mut rest = s;
    while let Some(((coef, digits), after)) = read_term(rest) {
        if !t.takes(coef, digits) {
            return None;
        }
        t.push(coef, digits);
        rest = after;
    }
    if t.nodes.is_empty() {
        return None;
    }
    Some((t.sum, rest))
}

// What stands behind `(lin `.
#[tactic(auto, using(crate::proofs::GoodSums::constants, crate::proofs::GoodSums::fine_terms), unfolding(crate::specs::Readers::readers))]
pub fn read_sum(s: &[u8]) -> Option<(Terms, &[u8])>
    ensures { SumRead s.now result }
{
    let (constant, s) = read_signed(s)?;
    if !is_small(constant) {
        return None;
    }
    // Here and where this is called no `?`: of an Option that holds a `Short` beside a slice the check does not cover it.
    let Some((terms, s)) = read_terms(constant, s) else {
        return None;
    };
    let s = read_word(s, b")\n")?;
    Some((terms, s))
}
