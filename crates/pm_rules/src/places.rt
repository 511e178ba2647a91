ghost use Rattle.std.specs.Prelude.{◌≡◌, option_map};
ghost use Rattle.pm_tokens.specs.Answers.{Gives};
ghost use Rattle.pm_rules.specs.Reading.{after, is_left, is_right, name_at, variable, indexed, place};
ghost use Rattle.pm_rules.specs.Scopes.{scope_in};
ghost use Rattle.pm_tokens.specs.Tokens.{toks};

use crate::expression::{Found, Lent, expr};
use pm_base::Place;
use pm_tokens::{Stop, Symbol, Token};
use std::alloc::Global;

#[tactic(auto, unfolding(crate::specs::Reading::after))]
fn after_left<'a, 'b>(tokens: &'b [Token<'a>]) -> Option<&'b [Token<'a>]>
    ensures { option_map (λ r. toks r.now) result ≡ after is_left (toks tokens.now) }
{
    match tokens {
        [Token::Symbol(Symbol::LeftBracket), rest @ ..] => Some(rest),
        _ => None,
    }
}

#[tactic(auto, unfolding(crate::specs::Reading::after))]
fn after_right<'a, 'b>(tokens: &'b [Token<'a>]) -> Option<&'b [Token<'a>]>
    ensures { option_map (λ r. toks r.now) result ≡ after is_right (toks tokens.now) }
{
    match tokens {
        [Token::Symbol(Symbol::RightBracket), rest @ ..] => Some(rest),
        _ => None,
    }
}

/// A name, and the tokens after it.
#[tactic(auto, unfolding(crate::specs::Reading::name_at))]
pub fn name_at<'a, 'b>(tokens: &'b [Token<'a>]) -> Option<(&'a [u8], &'b [Token<'a>])>
    ensures { option_map (λ r. (r.0.now, toks r.1.now)) result ≡ name_at (toks tokens.now) }
{
    match tokens {
        [Token::Name(word), rest @ ..] => Some((word, rest)),
        _ => None,
    }
}

#[tactic(auto, unfolding(crate::specs::Reading::variable))]
fn variable(scope: &Lent<'_>, word: &[u8]) -> (Place, bool)
    ensures { result ≡ variable (scope_in scope.now) word.now }
{
    let (var, known) = scope.names.var(word);
    (Place::Var { var }, known)
}

/// `EXPR ]`, after `CLASS [`.
#[tactic(auto, unfolding(crate::specs::Reading::indexed))]
fn indexed<'a, 'b>(
    alloc: Global,
    scope: &Lent<'_>,
    word: &[u8],
    tokens: &'b [Token<'a>],
) -> Result<Found<'a, 'b, Place>, Stop>
    ensures { Gives (λ r. ((r.0, r.1), toks r.2.now)) result (indexed (scope_in scope.now) word.now (toks tokens.now)) }
{
    let (at, known, rest) = expr(alloc, scope, tokens)?;
    let rest = after_right(rest).ok_or(Stop::Word)?;
    let (class, is_there) = scope.names.class(word);
    let known = (is_there && scope.names.has_members(class)) && known;
    Ok((Place::Member { class, at }, known, rest))
}

/// `VARIABLE` or `CLASS [ EXPR ]`.
#[tactic(auto, unfolding(crate::specs::Reading::place))]
pub fn place<'a, 'b>(
    alloc: Global,
    scope: &Lent<'_>,
    tokens: &'b [Token<'a>],
) -> Result<Found<'a, 'b, Place>, Stop>
    ensures { Gives (λ r. ((r.0, r.1), toks r.2.now)) result (place (scope_in scope.now) (toks tokens.now)) }
{
    let (word, rest) = name_at(tokens).ok_or(Stop::Word)?;
    match after_left(rest) {
        Some(inner) => indexed(alloc, scope, word, inner),
        None => {
            let (place, known) = variable(scope, word);
            Ok((place, known, rest))
        }
    }
}
