ghost use Rattle.std.specs.Prelude.{◌≡◌, option_map, true};
ghost use Rattle.pm_tokens.specs.Answers.{Gives};
ghost use Rattle.pm_rules.specs.Reading.{after, is_assign, is_comma};
ghost use Rattle.pm_rules.specs.Scopes.{scope_in};
ghost use Rattle.pm_rules.specs.Statements.{number_at, declared, assigned, reg_line, read_line, two, window, scan_line, let_line, change, set_line, add_line, only, wait_line, if_line, whole, after_word, statement};
ghost use Rattle.pm_tokens.specs.Tokens.{toks};

use crate::expression::{Found, Lent, expr, reg_in, same};
use crate::places::{name_at, place};
use crate::said::Said;
use pm_base::{Expr, Name, Place, Sense, Stmt, is_reserved};
use pm_tokens::{Stop, Symbol, Token, name_of};
use std::alloc::Global;

#[tactic(auto, unfolding(crate::specs::Reading::after))]
fn after_assign<'a, 'b>(tokens: &'b [Token<'a>]) -> Option<&'b [Token<'a>]>
    ensures { option_map (λ r. toks r.now) result ≡ after is_assign (toks tokens.now) }
{
    match tokens {
        [Token::Symbol(Symbol::Assign), rest @ ..] => Some(rest),
        _ => None,
    }
}

#[tactic(auto, unfolding(crate::specs::Reading::after))]
fn after_comma<'a, 'b>(tokens: &'b [Token<'a>]) -> Option<&'b [Token<'a>]>
    ensures { option_map (λ r. toks r.now) result ≡ after is_comma (toks tokens.now) }
{
    match tokens {
        [Token::Symbol(Symbol::Comma), rest @ ..] => Some(rest),
        _ => None,
    }
}

/// A number, and the tokens after it.
#[tactic(auto, unfolding(crate::specs::Statements::number_at))]
fn number_at<'a, 'b>(tokens: &'b [Token<'a>]) -> Option<(i64, &'b [Token<'a>])>
    ensures { option_map (λ r. (r.0, toks r.1.now)) result ≡ number_at (toks tokens.now) }
{
    match tokens {
        [Token::Number(n), rest @ ..] => Some((*n, rest)),
        _ => None,
    }
}

/// The name that is declared, and the tokens after it.
#[tactic(auto, unfolding(crate::specs::Statements::declared, crate::specs::Statements::is_free))]
fn declared<'a, 'b>(tokens: &'b [Token<'a>]) -> Option<(&'a str, &'b [Token<'a>])>
    ensures { option_map (λ r. (r.0.now, toks r.1.now)) result ≡ declared (toks tokens.now) }
{
    let (word, rest) = name_at(tokens)?;
    let name = name_of(word)?;
    if is_reserved(name) {
        return None;
    }
    Some((name, rest))
}

/// The name that is declared, and the tokens after the `=` behind it.
#[tactic(auto, unfolding(crate::specs::Statements::assigned))]
fn assigned<'a, 'b>(tokens: &'b [Token<'a>]) -> Option<(&'a str, &'b [Token<'a>])>
    ensures { option_map (λ r. (r.0.now, toks r.1.now)) result ≡ assigned (toks tokens.now) }
{
    let (name, rest) = declared(tokens)?;
    let rest = after_assign(rest)?;
    Some((name, rest))
}

/// `NAME NUMBER`, after `reg`.
#[tactic(auto, unfolding(crate::specs::Statements::reg_line))]
fn reg_line<'a>(alloc: Global, tokens: &[Token<'a>]) -> Result<(Said, bool), Stop>
    ensures { Gives (λ r. r) result (reg_line (toks tokens.now)) }
{
    let (name, rest) = declared(tokens).ok_or(Stop::Word)?;
    let (start, rest) = number_at(rest).ok_or(Stop::Word)?;
    if !rest.is_empty() {
        return Err(Stop::Word);
    }
    let name = Name::make(alloc, name)?;
    Ok((Said::Reg { name, start }, true))
}

/// `NAME = PLACE`, after `read`.
#[tactic(auto, unfolding(crate::specs::Statements::read_line))]
fn read_line<'a>(
    alloc: Global,
    scope: &Lent<'_>,
    tokens: &[Token<'a>],
) -> Result<(Said, bool), Stop>
    ensures { Gives (λ r. r) result (read_line (scope_in scope.now) (toks tokens.now)) }
{
    let (name, rest) = assigned(tokens).ok_or(Stop::Word)?;
    let (place, known, rest) = place(alloc, scope, rest)?;
    if !rest.is_empty() {
        return Err(Stop::Word);
    }
    let name = Name::make(alloc, name)?;
    let sense = Sense::Read { place };
    Ok((Said::Sense { name, sense }, known))
}

/// Two expressions, one after the other.
#[tactic(auto, unfolding(crate::specs::Statements::two))]
fn two<'a, 'b>(
    alloc: Global,
    scope: &Lent<'_>,
    tokens: &'b [Token<'a>],
) -> Result<Found<'a, 'b, (Expr, Expr)>, Stop>
    ensures { Gives (λ r. ((r.0, r.1), toks r.2.now)) result (two (scope_in scope.now) (toks tokens.now)) }
{
    let (first, first_known, rest) = expr(alloc, scope, tokens)?;
    let (second, second_known, rest) = expr(alloc, scope, rest)?;
    Ok(((first, second), first_known && second_known, rest))
}

/// `CLASS EXPR EXPR EXPR EXPR`.
#[tactic(auto, unfolding(crate::specs::Statements::window))]
fn window<'a, 'b>(
    alloc: Global,
    scope: &Lent<'_>,
    tokens: &'b [Token<'a>],
) -> Result<Found<'a, 'b, Sense>, Stop>
    ensures { Gives (λ r. ((r.0, r.1), toks r.2.now)) result (window (scope_in scope.now) (toks tokens.now)) }
{
    let (word, rest) = name_at(tokens).ok_or(Stop::Word)?;
    let ((x0, x1), x_known, rest) = two(alloc, scope, rest)?;
    let ((y0, y1), y_known, rest) = two(alloc, scope, rest)?;
    let (class, is_there) = scope.names.class(word);
    let sense = Sense::Scan {
        class,
        x0,
        x1,
        y0,
        y1,
    };
    Ok((sense, is_there && (x_known && y_known), rest))
}

/// `NAME = CLASS EXPR EXPR EXPR EXPR`, after `scan`.
#[tactic(auto, unfolding(crate::specs::Statements::scan_line))]
fn scan_line<'a>(
    alloc: Global,
    scope: &Lent<'_>,
    tokens: &[Token<'a>],
) -> Result<(Said, bool), Stop>
    ensures { Gives (λ r. r) result (scan_line (scope_in scope.now) (toks tokens.now)) }
{
    let (name, rest) = assigned(tokens).ok_or(Stop::Word)?;
    let (sense, known, rest) = window(alloc, scope, rest)?;
    if !rest.is_empty() {
        return Err(Stop::Word);
    }
    let name = Name::make(alloc, name)?;
    Ok((Said::Sense { name, sense }, known))
}

/// `NAME = EXPR`, after `let`.
#[tactic(auto, unfolding(crate::specs::Statements::let_line))]
fn let_line<'a>(alloc: Global, scope: &Lent<'_>, tokens: &[Token<'a>]) -> Result<(Said, bool), Stop>
    ensures { Gives (λ r. r) result (let_line (scope_in scope.now) (toks tokens.now)) }
{
    let (word, rest) = name_at(tokens).ok_or(Stop::Word)?;
    let rest = after_assign(rest).ok_or(Stop::Word)?;
    let (value, known, rest) = expr(alloc, scope, rest)?;
    if !rest.is_empty() {
        return Err(Stop::Word);
    }
    let (reg, is_there) = reg_in(scope.regs, word);
    Ok((Said::Does(Stmt::Let { reg, value }), is_there && known))
}

/// `PLACE = EXPR , EXPR`, after `set` or `add`, and whether all of its names are there.
struct Changed {
    place: Place,
    x: Expr,
    y: Expr,
    known: bool,
}

#[tactic(auto, unfolding(crate::specs::Statements::change))]
fn change<'a>(alloc: Global, scope: &Lent<'_>, tokens: &[Token<'a>]) -> Result<Changed, Stop>
    ensures { Gives (λ r. ((r.place, (r.x, r.y)), r.known)) result (change (scope_in scope.now) (toks tokens.now)) }
{
    let (place, place_known, rest) = place(alloc, scope, tokens)?;
    let rest = after_assign(rest).ok_or(Stop::Word)?;
    let (x, x_known, rest) = expr(alloc, scope, rest)?;
    let rest = after_comma(rest).ok_or(Stop::Word)?;
    let (y, y_known, rest) = expr(alloc, scope, rest)?;
    if !rest.is_empty() {
        return Err(Stop::Word);
    }
    let known = place_known && (x_known && y_known);
    Ok(Changed { place, x, y, known })
}

#[tactic(auto, unfolding(crate::specs::Statements::set_line))]
fn set_line<'a>(alloc: Global, scope: &Lent<'_>, tokens: &[Token<'a>]) -> Result<(Said, bool), Stop>
    ensures { Gives (λ r. r) result (set_line (scope_in scope.now) (toks tokens.now)) }
{
    let Changed { place, x, y, known } = change(alloc, scope, tokens)?;
    Ok((Said::Does(Stmt::Set { place, x, y }), known))
}

#[tactic(auto, unfolding(crate::specs::Statements::add_line))]
fn add_line<'a>(alloc: Global, scope: &Lent<'_>, tokens: &[Token<'a>]) -> Result<(Said, bool), Stop>
    ensures { Gives (λ r. r) result (add_line (scope_in scope.now) (toks tokens.now)) }
{
    let Changed { place, x, y, known } = change(alloc, scope, tokens)?;
    Ok((Said::Does(Stmt::Add { place, x, y }), known))
}

/// `EXPR`, after `wait` or `if`.
#[tactic(auto, unfolding(crate::specs::Statements::only))]
fn only<'a>(alloc: Global, scope: &Lent<'_>, tokens: &[Token<'a>]) -> Result<(Expr, bool), Stop>
    ensures { Gives (λ r. r) result (only (scope_in scope.now) (toks tokens.now)) }
{
    let (value, known, rest) = expr(alloc, scope, tokens)?;
    if !rest.is_empty() {
        return Err(Stop::Word);
    }
    Ok((value, known))
}

#[tactic(auto, unfolding(crate::specs::Statements::wait_line))]
fn wait_line<'a>(
    alloc: Global,
    scope: &Lent<'_>,
    tokens: &[Token<'a>],
) -> Result<(Said, bool), Stop>
    ensures { Gives (λ r. r) result (wait_line (scope_in scope.now) (toks tokens.now)) }
{
    let (value, known) = only(alloc, scope, tokens)?;
    Ok((Said::Does(Stmt::Wait { value }), known))
}

#[tactic(auto, unfolding(crate::specs::Statements::if_line))]
fn if_line<'a>(alloc: Global, scope: &Lent<'_>, tokens: &[Token<'a>]) -> Result<(Said, bool), Stop>
    ensures { Gives (λ r. r) result (if_line (scope_in scope.now) (toks tokens.now)) }
{
    let (test, known) = only(alloc, scope, tokens)?;
    Ok((Said::If(test), known))
}

/// A word alone.
fn alone<'a>(said: Said, tokens: &[Token<'a>]) -> Result<(Said, bool), Stop>
    ensures { Gives (λ r. r) result (whole (said, true) (toks tokens.now)) }
{
    if !tokens.is_empty() {
        return Err(Stop::Word);
    }
    Ok((said, true))
}

/// What stands after the first word. `add` is a statement in version 2 alone.
#[tactic(auto, unfolding(crate::specs::Statements::after_word))]
fn after_word<'a>(
    alloc: Global,
    scope: &Lent<'_>,
    version: u32,
    word: &[u8],
    tokens: &[Token<'a>],
) -> Result<(Said, bool), Stop>
    ensures { Gives (λ r. r) result (after_word (scope_in scope.now) version word.now (toks tokens.now)) }
{
    if same(word, b"reg") {
        reg_line(alloc, tokens)
    } else if same(word, b"read") {
        read_line(alloc, scope, tokens)
    } else if same(word, b"scan") {
        scan_line(alloc, scope, tokens)
    } else if same(word, b"let") {
        let_line(alloc, scope, tokens)
    } else if same(word, b"set") {
        set_line(alloc, scope, tokens)
    } else if same(word, b"wait") {
        wait_line(alloc, scope, tokens)
    } else if same(word, b"if") {
        if_line(alloc, scope, tokens)
    } else if same(word, b"else") {
        alone(Said::Else, tokens)
    } else if same(word, b"end") {
        alone(Said::End, tokens)
    } else if same(word, b"add") && version == 2 {
        add_line(alloc, scope, tokens)
    } else {
        Err(Stop::Word)
    }
}

/// What the tokens of a line say, and whether all the names that it uses are there.
#[tactic(auto, unfolding(crate::specs::Statements::statement))]
pub fn statement<'a>(
    alloc: Global,
    scope: &Lent<'_>,
    version: u32,
    tokens: &[Token<'a>],
) -> Result<(Said, bool), Stop>
    ensures { Gives (λ r. r) result (statement (scope_in scope.now) version (toks tokens.now)) }
{
    match tokens {
        [Token::Name(word), rest @ ..] => after_word(alloc, scope, version, word, rest),
        _ => Err(Stop::Word),
    }
}
