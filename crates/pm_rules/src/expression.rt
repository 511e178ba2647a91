ghost use Rattle.std.specs.Prelude.{◌≡◌, IfOk, option_map, Some, None, map, drop};
ghost use Rattle.std.specs.Str.{bytes_eq};
ghost use Rattle.pm_base.specs.Fits.{reg_names, sense_names};
ghost use Rattle.pm_base.specs.Names.{is_reserved};
ghost use Rattle.pm_tokens.specs.Answers.{Gives};
ghost use Rattle.pm_rules.specs.Reading.{after, is_close, is_dot, operator_by, operator_named, operator, field_named, field_at, known_or_zero, number_of, number_from, number_in, part, register, named, joined, closed, expression, expr};
ghost use Rattle.pm_rules.specs.Scopes.{scope_in};
ghost use Rattle.pm_tokens.specs.Tokens.{toks};

use crate::names::Names;
use pm_base::{Boxed, Expr, Field, Memory, Op, RegRow, SenseRow};
use pm_tokens::{Stop, Symbol, Token, name_of};
use std::alloc::Global;

/// What a line may use: the names of the scenario, and the registers and senses of the lines before it.
#[derive(Clone, Copy)]
pub struct Lent<'a> {
    pub names: &'a Names<'a>,
    pub regs: &'a [RegRow],
    pub senses: &'a [SenseRow],
}

/// What is read, whether all of its names are there, and the tokens after it.
pub type Found<'a, 'b, T> = (T, bool, &'b [Token<'a>]);

pub fn same(a: &[u8], b: &[u8]) -> bool
    ensures { result ≡ bytes_eq a.now b.now }
{
    a == b
}

#[tactic(auto, unfolding(crate::specs::Reading::after))]
fn after_close<'a, 'b>(tokens: &'b [Token<'a>]) -> Option<&'b [Token<'a>]>
    ensures { option_map (λ r. toks r.now) result ≡ after is_close (toks tokens.now) }
{
    match tokens {
        [Token::Symbol(Symbol::Close), rest @ ..] => Some(rest),
        _ => None,
    }
}

fn operator_by(symbol: Symbol) -> Option<Op>
    ensures { result ≡ operator_by symbol }
{
    match symbol {
        Symbol::Plus => Some(Op::Add),
        Symbol::Minus => Some(Op::Sub),
        Symbol::Star => Some(Op::Mul),
        Symbol::Slash => Some(Op::Div),
        Symbol::Percent => Some(Op::Rem),
        Symbol::Less => Some(Op::Less),
        Symbol::AtMost => Some(Op::AtMost),
        Symbol::Equal => Some(Op::Equal),
        Symbol::Differ => Some(Op::Differ),
        _ => None,
    }
}

fn operator_named(word: &[u8]) -> Option<Op>
    ensures { result ≡ operator_named word.now }
{
    if same(word, b"min") {
        Some(Op::Min)
    } else if same(word, b"max") {
        Some(Op::Max)
    } else {
        None
    }
}

#[tactic(auto, unfolding(crate::specs::Reading::operator))]
fn operator<'a, 'b>(tokens: &'b [Token<'a>]) -> Result<(Op, &'b [Token<'a>]), Stop>
    ensures { Gives (λ r. (r.0, toks r.1.now)) result (operator (toks tokens.now)) }
{
    let found = match tokens.first() {
        Some(Token::Symbol(symbol)) => operator_by(*symbol),
        Some(Token::Name(word)) => operator_named(word),
        _ => None,
    };
    match found {
        Some(op) => Ok((op, &tokens[1..])),
        None => Err(Stop::Word),
    }
}

fn field_named(word: &[u8]) -> Option<Field>
    ensures { result ≡ field_named word.now }
{
    if same(word, b"n") {
        Some(Field::N)
    } else if same(word, b"i") {
        Some(Field::I)
    } else if same(word, b"x") {
        Some(Field::X)
    } else if same(word, b"y") {
        Some(Field::Y)
    } else if same(word, b"sx") {
        Some(Field::Sx)
    } else if same(word, b"sy") {
        Some(Field::Sy)
    } else {
        None
    }
}

#[tactic(auto, unfolding(crate::specs::Reading::field_at))]
fn field_at<'a, 'b>(tokens: &'b [Token<'a>]) -> Result<(Field, &'b [Token<'a>]), Stop>
    ensures { Gives (λ r. (r.0, toks r.1.now)) result (field_at (toks tokens.now)) }
{
    let found = match tokens.first() {
        Some(Token::Name(word)) => field_named(word),
        _ => None,
    };
    match found {
        Some(field) => Ok((field, &tokens[1..])),
        None => Err(Stop::Word),
    }
}

#[tactic(auto, unfolding(crate::specs::Reading::number_of))]
fn reg_number(regs: &[RegRow], word: &[u8]) -> Option<u32>
    ensures { result ≡ number_of (reg_names regs.now) word.now }
{
    for (i, row) in regs.iter().enumerate() {
        if same(row.name.as_str().as_bytes(), word) {
            return u32::try_from(i).ok();
        }
    }
    None
}

#[tactic(auto, unfolding(crate::specs::Reading::number_of))]
fn sense_number(senses: &[SenseRow], word: &[u8]) -> Option<u32>
    ensures { result ≡ number_of (sense_names senses.now) word.now }
{
    for (i, row) in senses.iter().enumerate() {
        if same(row.name.as_str().as_bytes(), word) {
            return u32::try_from(i).ok();
        }
    }
    None
}

/// The number of a register's name, and whether it is there.
#[tactic(auto, unfolding(crate::specs::Reading::number_in))]
pub fn reg_in(regs: &[RegRow], word: &[u8]) -> (u32, bool)
    ensures { result ≡ number_in (reg_names regs.now) word.now }
{
    match reg_number(regs, word) {
        Some(number) => (number, true),
        None => (0, false),
    }
}

/// The number of a sense's name, and whether it is there.
#[tactic(auto, unfolding(crate::specs::Reading::number_in))]
fn sense_in(senses: &[SenseRow], word: &[u8]) -> (u32, bool)
    ensures { result ≡ number_in (sense_names senses.now) word.now }
{
    match sense_number(senses, word) {
        Some(number) => (number, true),
        None => (0, false),
    }
}

fn is_reserved(word: &[u8]) -> bool
    ensures { result ≡ is_reserved word.now }
{
    match name_of(word) {
        Some(name) => pm_base::is_reserved(name),
        None => false,
    }
}

/// `FIELD`, after `SENSE .`
#[tactic(auto, unfolding(crate::specs::Reading::part))]
fn part<'a, 'b>(
    scope: &Lent<'_>,
    word: &[u8],
    tokens: &'b [Token<'a>],
) -> Result<Found<'a, 'b, Expr>, Stop>
    ensures { Gives (λ r. ((r.0, r.1), toks r.2.now)) result (part (scope_in scope.now) word.now (toks tokens.now)) }
{
    let (field, rest) = field_at(tokens)?;
    let (sense, known) = sense_in(scope.senses, word);
    Ok((Expr::Part { sense, field }, known, rest))
}

#[tactic(auto, unfolding(crate::specs::Reading::register))]
fn register(scope: &Lent<'_>, word: &[u8]) -> (Expr, bool)
    ensures { result ≡ register (scope_in scope.now) word.now }
{
    let (reg, known) = reg_in(scope.regs, word);
    (Expr::Reg(reg), known)
}

/// `now`, `me`, `REGISTER` or `SENSE . FIELD`.
#[tactic(auto, unfolding(crate::specs::Reading::named, crate::specs::Reading::after))]
fn named<'a, 'b>(
    scope: &Lent<'_>,
    word: &[u8],
    tokens: &'b [Token<'a>],
) -> Result<Found<'a, 'b, Expr>, Stop>
    ensures { Gives (λ r. ((r.0, r.1), toks r.2.now)) result (named (scope_in scope.now) word.now (toks tokens.now)) }
{
    if same(word, b"now") {
        return Ok((Expr::Now, true, tokens));
    }
    if same(word, b"me") {
        return Ok((Expr::Me, true, tokens));
    }
    if is_reserved(word) {
        return Err(Stop::Word);
    }
    if let [Token::Symbol(Symbol::Dot), rest @ ..] = tokens {
        return part(scope, word, rest);
    }
    let (e, known) = register(scope, word);
    Ok((e, known, tokens))
}

/// Both sides of an operator.
#[tactic(auto, unfolding(crate::specs::Reading::joined))]
fn joined(
    alloc: Global,
    op: Op,
    left: (Expr, bool),
    right: (Expr, bool),
) -> Result<(Expr, bool), Memory>
    ensures { IfOk result (λ r. r ≡ joined op left right) }
{
    let known = left.1 && right.1;
    let left = Boxed::new(alloc, left.0)?;
    let right = Boxed::new(alloc, right.0)?;
    Ok((Expr::Bin { op, left, right }, known))
}

#[tactic(auto, unfolding(crate::specs::Reading::closed))]
fn closed<'a, 'b>(
    alloc: Global,
    op: Op,
    left: (Expr, bool),
    right: (Expr, bool),
    tokens: &'b [Token<'a>],
) -> Result<Found<'a, 'b, Expr>, Stop>
    ensures { Gives (λ r. ((r.0, r.1), toks r.2.now)) result (closed op left right (toks tokens.now)) }
{
    let rest = after_close(tokens).ok_or(Stop::Word)?;
    let (e, known) = joined(alloc, op, left, right)?;
    Ok((e, known, rest))
}

/// An expression with at most so many brackets in one another.
#[tactic(auto, unfolding(crate::specs::Reading::expression))]
fn expression<'a, 'b>(
    alloc: Global,
    scope: &Lent<'_>,
    levels: u32,
    tokens: &'b [Token<'a>],
) -> Result<Found<'a, 'b, Expr>, Stop>
    ensures { Gives (λ r. ((r.0, r.1), toks r.2.now)) result (expression (scope_in scope.now) levels (toks tokens.now)) }
{
    if levels == 0 {
        return Err(Stop::Word);
    }
    match tokens {
        [] => Err(Stop::Word),
        [Token::Number(n), rest @ ..] => Ok((Expr::Num(*n), true, rest)),
        [Token::Name(word), rest @ ..] => named(scope, word, rest),
        [Token::Symbol(Symbol::Open), rest @ ..] => {
            let (left, left_known, rest) = expression(alloc, scope, levels - 1, rest)?;
            let (op, rest) = operator(rest)?;
            let (right, right_known, rest) = expression(alloc, scope, levels - 1, rest)?;
            closed(alloc, op, (left, left_known), (right, right_known), rest)
        }
        [Token::Symbol(_), ..] => Err(Stop::Word),
    }
}

/// An expression of a line, which has at most 64 tokens.
pub fn expr<'a, 'b>(
    alloc: Global,
    scope: &Lent<'_>,
    tokens: &'b [Token<'a>],
) -> Result<Found<'a, 'b, Expr>, Stop>
    ensures { Gives (λ r. ((r.0, r.1), toks r.2.now)) result (expr (scope_in scope.now) (toks tokens.now)) }
{
    expression(alloc, scope, 64, tokens)
}
