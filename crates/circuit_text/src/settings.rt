// An `fbs` line.
ghost use Rattle.std.specs.Prelude.{◌≡◌};
ghost use Rattle.rules.specs.CircuitText.{policy, tables, fbs_line};
ghost use Rattle.text.specs.Capped.{capped};
ghost use Rattle.text.specs.Pieces.{piece};
ghost use Rattle.circuit_text.specs.Settings.{cap_settings};

use forms::read_norm;
use rules::{Policy, Settings};
use text::{read_number, read_word};

// POLICY
#[tactic(auto, unfolding(rules::specs::Form::either, rules::specs::Form::onward, rules::specs::CircuitText::policy))]
fn read_policy(s: &[u8]) -> Option<(Policy, &[u8])>
    ensures { piece result ≡ policy s.now }
{
    let basic = read_word(s, b"basic").map(|rest| (Policy::Basic, rest));
    basic
        .or_else(|| Some((Policy::Naive, read_word(s, b"naive")?)))
        .or_else(|| Some((Policy::Span, read_word(s, b"span")?)))
}

// TABLES: whether there may be many.
#[tactic(auto, unfolding(rules::specs::Form::either, rules::specs::Form::onward, rules::specs::CircuitText::tables))]
fn read_tables(s: &[u8]) -> Option<(bool, &[u8])>
    ensures { piece result ≡ tables s.now }
{
    let one = read_word(s, b"one").map(|rest| (false, rest));
    one.or_else(|| Some((true, read_word(s, b"many")?)))
}

// `(fbs P M T NORM POLICY TABLES)` and its newline; a P, M or T of 65536 stands for all that are more.
#[tactic(auto, unfolding(rules::specs::Form::onward, rules::specs::CircuitText::fbs_line, text::specs::Capped::capped, crate::specs::Settings::cap_settings))]
pub fn read_fbs(s: &[u8]) -> Option<(Settings, &[u8])>
    ensures { piece result ≡ capped cap_settings (fbs_line s.now) }
{
    let s = read_word(s, b"(fbs ")?;
    let (p, s) = read_number(s)?;
    let s = read_word(s, b" ")?;
    let (m, s) = read_number(s)?;
    let s = read_word(s, b" ")?;
    let (t, s) = read_number(s)?;
    let s = read_word(s, b" ")?;
    let (norm, s) = read_norm(s)?;
    let s = read_word(s, b" ")?;
    let (policy, s) = read_policy(s)?;
    let s = read_word(s, b" ")?;
    let (many, s) = read_tables(s)?;
    let s = read_word(s, b")\n")?;
    Some((
        Settings {
            p,
            m,
            t,
            norm,
            policy,
            many,
        },
        s,
    ))
}
