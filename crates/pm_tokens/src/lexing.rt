ghost use Rattle.std.specs.Prelude.{◌≡◌, ◌<◌, ◌≤◌, ◌+◌, ◌^◌, length, option_map, IfSome, slice_index, OnOk, Some, None, if◌then◌else◌, ◌++◌, ◌∷◌, [], drop, ◌⊎◌};
ghost use Rattle.pm_tokens.specs.Tokens.{tok, toks, symbol};
ghost use Rattle.pm_tokens.specs.Answers.{Gives};
ghost use Rattle.pm_base.specs.Names.{is_lower, is_word, is_name};
ghost use Rattle.pm_tokens.specs.Lexing.{is_digit, is_blank, word_len, digits_len, at_most, digits, positive, negative, word, mark, token, lex};

use crate::stop::Stop;
use crate::token::{Symbol, Token};
use pm_base::{Memory, is_name};
use std::alloc::Global;

fn is_lower(b: u8) -> bool
    ensures { result ≡ is_lower b }
{
    97 <= b && b <= 122
}

fn is_digit(b: u8) -> bool
    ensures { result ≡ is_digit b }
{
    48 <= b && b <= 57
}

fn is_word(b: u8) -> bool
    ensures { result ≡ is_word b }
{
    (is_lower(b) || is_digit(b)) || b == b'_'
}

fn word_len(text: &[u8]) -> usize
    ensures value { result ≡ word_len text.now }
    ensures within { result ≤ length text.now }
{
    for (i, b) in text.iter().enumerate() {
        if !is_word(*b) {
            return i;
        }
    }
    text.len()
}

fn digits_len(text: &[u8]) -> usize
    ensures value { result ≡ digits_len text.now }
    ensures within { result ≤ length text.now }
{
    for (i, b) in text.iter().enumerate() {
        if !is_digit(*b) {
            return i;
        }
    }
    text.len()
}

#[tactic(auto, unfolding(crate::specs::Lexing::at_most))]
fn at_most(most: u64, text: &[u8]) -> Option<u64>
    ensures value { result ≡ at_most most text.now }
    ensures within { IfSome result (λ n. n ≤ most) }
{
    let mut n = 0u64;
    for c in text {
        let more = n as u128 * 10 + c.saturating_sub(48) as u128;
        if more > most as u128 {
            return None;
        }
        n = more as u64;
    }
    Some(n)
}

#[tactic(auto, unfolding(crate::specs::Lexing::digits))]
fn digits(most: u64, text: &[u8]) -> Option<(u64, usize)>
    ensures value { result ≡ digits most text.now }
    ensures within { IfSome result (λ r. (r.1 ≡ digits_len text.now) × (r.1 ≤ length text.now) × (r.0 ≤ most)) }
{
    let n = digits_len(text);
    if n != word_len(text) {
        return None;
    }
    let value = at_most(most, &text[..n])?;
    Some((value, n))
}

#[tactic(auto, unfolding(crate::specs::Lexing::positive))]
fn positive<'a>(text: &'a [u8]) -> Option<(Token<'a>, usize)>
    ensures value { option_map (λ p. (tok p.0, p.1)) result ≡ positive text.now }
    ensures within { IfSome result (λ p. (p.1 ≡ digits_len text.now) × (p.1 ≤ length text.now)) }
{
    let (value, len) = digits(9223372036854775807, text)?;
    Some((Token::Number(value as i64), len))
}

#[tactic(auto, unfolding(crate::specs::Lexing::negative))]
fn negative<'a>(text: &'a [u8]) -> Option<(Token<'a>, usize)>
    ensures value { option_map (λ p. (tok p.0, p.1)) result ≡ negative text.now }
    ensures within { IfSome result (λ p. (1 ≤ p.1) × (p.1 ≤ length text.now + 1)) }
{
    let (value, len) = digits(9223372036854775808, text)?;
    let number = if value == 9223372036854775808 {
        i64::MIN
    } else {
        -(value as i64)
    };
    Some((Token::Number(number), len + 1))
}

#[tactic(auto, unfolding(crate::specs::Lexing::word))]
fn word<'a>(text: &'a [u8]) -> Option<(Token<'a>, usize)>
    ensures value { option_map (λ p. (tok p.0, p.1)) result ≡ word text.now }
    ensures within { IfSome result (λ p. (p.1 ≡ word_len text.now) × (p.1 ≤ length text.now)) }
{
    let n = word_len(text);
    if n > 32 {
        return None;
    }
    Some((Token::Name(&text[..n]), n))
}

#[tactic(auto, unfolding(crate::specs::Lexing::mark))]
fn mark(b: u8, next: u8) -> Option<(Symbol, usize)>
    ensures value { option_map (λ p. (symbol p.0, p.1)) result ≡ mark b next }
    ensures within { IfSome result (λ p. (1 ≤ p.1) × ((p.1 ≡ 1) ⊎ ((p.1 ≡ 2) × (next ≡ 61)))) }
{
    match b {
        b'(' => Some((Symbol::Open, 1)),
        b')' => Some((Symbol::Close, 1)),
        b'[' => Some((Symbol::LeftBracket, 1)),
        b']' => Some((Symbol::RightBracket, 1)),
        b'.' => Some((Symbol::Dot, 1)),
        b',' => Some((Symbol::Comma, 1)),
        b'=' if next == b'=' => Some((Symbol::Equal, 2)),
        b'=' => Some((Symbol::Assign, 1)),
        b'!' if next == b'=' => Some((Symbol::Differ, 2)),
        b'<' if next == b'=' => Some((Symbol::AtMost, 2)),
        b'<' => Some((Symbol::Less, 1)),
        b'+' => Some((Symbol::Plus, 1)),
        b'-' => Some((Symbol::Minus, 1)),
        b'*' => Some((Symbol::Star, 1)),
        b'/' => Some((Symbol::Slash, 1)),
        b'%' => Some((Symbol::Percent, 1)),
        _ => None,
    }
}

/// A symbol at the front.
fn marked<'a>(b: u8, rest: &[u8]) -> Option<(Token<'a>, usize)>
    ensures value { option_map (λ p. (tok p.0, p.1)) result ≡ mark b (slice_index rest.now 0) }
    ensures within { IfSome result (λ p. (1 ≤ p.1) × (p.1 ≤ length rest.now + 1)) }
{
    let next = match rest.first() {
        Some(next) => *next,
        None => 0,
    };
    let (symbol, len) = mark(b, next)?;
    Some((Token::Symbol(symbol), len))
}

#[tactic(auto, unfolding(crate::specs::Lexing::token))]
fn token<'a>(text: &'a [u8]) -> Option<(Token<'a>, usize)>
    ensures value { option_map (λ p. (tok p.0, p.1)) result ≡ token text.now }
    ensures within { IfSome result (λ p. (1 ≤ p.1) × (p.1 ≤ length text.now)) }
{
    let (b, rest) = text.split_first()?;
    if is_lower(*b) {
        word(text)
    } else if is_digit(*b) {
        positive(text)
    } else if *b == b'-' && starts_with_digit(rest) {
        negative(rest)
    } else {
        marked(*b, rest)
    }
}

fn starts_with_digit(text: &[u8]) -> bool
    ensures { result ≡ is_digit (slice_index text.now 0) }
{
    match text.first() {
        Some(b) => is_digit(*b),
        None => false,
    }
}

fn is_blank(b: u8) -> bool
    ensures { result ≡ is_blank b }
{
    b == b' ' || b == b'\t'
}

fn after(text: &[u8], len: usize) -> &[u8]
    requires { len ≤ length text.now }
    ensures { result.now ≡ drop len text.now }
{
    &text[len..]
}

/// The tokens of a line.
#[tactic(auto, unfolding(crate::specs::Lexing::lex))]
pub fn lex<'a>(alloc: Global, text: &'a [u8]) -> Result<Vec<Token<'a>>, Stop>
    ensures { Gives (λ v. toks v.items) result (lex text.now) }
{
    let mut out = Vec::new(alloc);
    let mut rest = text;
    while let Some(b) = rest.first() {
        if is_blank(*b) {
            rest = after(rest, 1);
            continue;
        }
        match token(rest) {
            Some((token, len)) => {
                push(&mut out, token)?;
                rest = after(rest, len);
            }
            None => return Err(Stop::Word),
        }
    }
    Ok(out)
}

fn push<'a>(out: &mut Vec<Token<'a>>, token: Token<'a>) -> Result<(), Memory>
    ensures { OnOk result (out.new.items ≡ out.old.items ++ token.entry ∷ []) }
{
    out.push(token)?;
    Ok(())
}

/// The bytes as text, where they are a name.
pub fn name_of(word: &[u8]) -> Option<&str>
    ensures { option_map (λ t. t.now) result ≡ (if is_name word.now then Some word.now else None) }
{
    match std::str::from_utf8(word) {
        Ok(text) => { if is_name(text) { Some(text) } else { None } }
        Err(_) => None,
    }
}
