ghost use Rattle.std.specs.Prelude.{◌≡◌, ℕ, List, IfSome, IfOk};
ghost use Rattle.std.specs.Option.{option_map};
ghost use Rattle.std.specs.List.{AllByRecursion};
ghost use Rattle.dd_tokens.specs.TokenIn.{IsTokenIn};
ghost use Rattle.dd_tokens.specs.Lexeme.{lexemes_of};
ghost use Rattle.dd_script.specs.FormSteps.{alone, name_at, two_names_at, space_at, proc_at, same_at, move_at, policy_named, policy_at, rule_named, place_at, array_at, scalar_at, task_at, form_by};

use crate::argument::arguments_at;
use crate::filling::filling_at;
use crate::keyword::Keyword;
use crate::numeral::{Numeral, numeral_at};
use crate::word::{Word, is_word, word_at};
use crate::written::Written;
use dd_blocks::{Policy, Rule};
use dd_tokens::Token;
use std::alloc::{AllocError, Global};

/// The statement, if no token is left.
#[tactic(auto, unfolding(crate::specs::FormSteps::alone))]
fn alone<'a>(written: Written<'a>, rest: &[Token]) -> Option<Written<'a>>
    ensures { (line : List ℕ) → result ≡ alone written.entry (lexemes_of line rest.now) }
{
    if rest.is_empty() { Some(written) } else { None }
}

/// The one name that is left.
#[tactic(auto, unfolding(crate::specs::FormSteps::name_at))]
fn name_at<'a>(line: &'a [u8], tokens: &[Token]) -> Option<Word<'a>>
    requires { AllByRecursion (IsTokenIn line.now) tokens.now }
    ensures { result ≡ name_at (lexemes_of line.now tokens.now) }
{
    let (name, rest) = word_at(line, tokens)?;
    if rest.is_empty() { Some(name) } else { None }
}

/// The two names that are left.
#[tactic(auto, unfolding(crate::specs::FormSteps::two_names_at))]
fn two_names_at<'a>(line: &'a [u8], tokens: &[Token]) -> Option<(Word<'a>, Word<'a>)>
    requires { AllByRecursion (IsTokenIn line.now) tokens.now }
    ensures { result ≡ two_names_at (lexemes_of line.now tokens.now) }
{
    let (first, rest) = word_at(line, tokens)?;
    let second = name_at(line, rest)?;
    Some((first, second))
}

#[tactic(auto, unfolding(crate::specs::FormSteps::space_at))]
fn space_at<'a>(line: &'a [u8], tokens: &[Token]) -> Option<Written<'a>>
    requires { AllByRecursion (IsTokenIn line.now) tokens.now }
    ensures { result ≡ space_at (lexemes_of line.now tokens.now) }
{
    let (name, rest) = word_at(line, tokens)?;
    let (limit, rest) = numeral_at(line, rest)?;
    alone(Written::Space { name, limit }, rest)
}

#[tactic(auto, unfolding(crate::specs::FormSteps::proc_at))]
fn proc_at<'a>(line: &'a [u8], tokens: &[Token]) -> Option<Written<'a>>
    requires { AllByRecursion (IsTokenIn line.now) tokens.now }
    ensures { result ≡ proc_at (lexemes_of line.now tokens.now) }
{
    let (name, space) = two_names_at(line, tokens)?;
    Some(Written::Proc { name, space })
}

#[tactic(auto, unfolding(crate::specs::FormSteps::same_at))]
fn same_at<'a>(line: &'a [u8], tokens: &[Token]) -> Option<Written<'a>>
    requires { AllByRecursion (IsTokenIn line.now) tokens.now }
    ensures { result ≡ same_at (lexemes_of line.now tokens.now) }
{
    let (name, old) = two_names_at(line, tokens)?;
    Some(Written::Same { name, old })
}

#[tactic(auto, unfolding(crate::specs::FormSteps::move_at))]
fn move_at<'a>(line: &'a [u8], tokens: &[Token]) -> Option<Written<'a>>
    requires { AllByRecursion (IsTokenIn line.now) tokens.now }
    ensures { result ≡ move_at (lexemes_of line.now tokens.now) }
{
    let (name, space) = two_names_at(line, tokens)?;
    Some(Written::MoveTo { name, space })
}

#[tactic(auto, unfolding(crate::specs::FormSteps::policy_named))]
fn policy_named(word: &[u8]) -> Option<Policy>
    ensures { result ≡ policy_named word.now }
{
    if is_word(word, b"lru") {
        Some(Policy::Lru)
    } else if is_word(word, b"mru") {
        Some(Policy::Mru)
    } else {
        None
    }
}

#[tactic(auto, unfolding(crate::specs::FormSteps::policy_at))]
fn policy_at<'a>(line: &'a [u8], tokens: &[Token]) -> Option<Written<'a>>
    requires { AllByRecursion (IsTokenIn line.now) tokens.now }
    ensures { result ≡ policy_at (lexemes_of line.now tokens.now) }
{
    let (word, rest) = word_at(line, tokens)?;
    let policy = policy_named(word.as_bytes())?;
    alone(Written::PolicyIs(policy), rest)
}

#[tactic(auto, unfolding(crate::specs::FormSteps::rule_named))]
fn rule_named(word: &[u8]) -> Option<Rule>
    ensures { result ≡ rule_named word.now }
{
    if is_word(word, b"rr") {
        Some(Rule::Rr)
    } else if is_word(word, b"home") {
        Some(Rule::Home)
    } else {
        None
    }
}

#[tactic(auto, unfolding(crate::specs::FormSteps::place_at))]
fn place_at<'a>(line: &'a [u8], tokens: &[Token]) -> Option<Written<'a>>
    requires { AllByRecursion (IsTokenIn line.now) tokens.now }
    ensures { result ≡ place_at (lexemes_of line.now tokens.now) }
{
    let (word, rest) = word_at(line, tokens)?;
    let rule = rule_named(word.as_bytes())?;
    alone(Written::PlaceIs(rule), rest)
}

#[tactic(auto, unfolding(crate::specs::FormSteps::array_at))]
fn array_at<'a>(line: &'a [u8], tokens: &[Token]) -> Option<Written<'a>>
    requires { AllByRecursion (IsTokenIn line.now) tokens.now }
    ensures { result ≡ array_at (lexemes_of line.now tokens.now) }
{
    let (name, rest) = word_at(line, tokens)?;
    let (rows, rest) = numeral_at(line, rest)?;
    let (cols, rest) = numeral_at(line, rest)?;
    let (brows, rest) = numeral_at(line, rest)?;
    let (bcols, rest) = numeral_at(line, rest)?;
    let (fill, rest) = filling_at(line, rest)?;
    alone(
        Written::Array {
            name,
            rows,
            cols,
            brows,
            bcols,
            fill,
        },
        rest,
    )
}

/// A number, if one stands at the front, and the tokens behind it.
#[tactic(auto, unfolding(crate::specs::FormSteps::scalar_at))]
fn scalar_at<'a, 't>(line: &'a [u8], tokens: &'t [Token]) -> (Option<Numeral<'a>>, &'t [Token])
    requires { AllByRecursion (IsTokenIn line.now) tokens.now }
    ensures value { (result.0, lexemes_of line.now result.1.now) ≡ scalar_at (lexemes_of line.now tokens.now) }
    ensures rest { AllByRecursion (IsTokenIn line.now) result.1.now }
{
    match numeral_at(line, tokens) {
        Some((scalar, rest)) => (Some(scalar), rest),
        None => (None, tokens),
    }
}

#[tactic(auto, unfolding(crate::specs::FormSteps::task_at))]
fn task_at<'a>(
    alloc: Global,
    line: &'a [u8],
    tokens: &[Token],
) -> Result<Option<Written<'a>>, AllocError>
    requires { AllByRecursion (IsTokenIn line.now) tokens.now }
    ensures { IfOk result (λ found. found ≡ task_at (lexemes_of line.now tokens.now)) }
{
    let Some((kernel, rest)) = word_at(line, tokens) else {
        return Ok(None);
    };
    let (scalar, rest) = scalar_at(line, rest);
    let Some(arguments) = arguments_at(alloc, line, rest)? else {
        return Ok(None);
    };
    Ok(Some(Written::Task {
        kernel,
        scalar,
        arguments,
    }))
}

/// The statement with that first word, from the tokens behind it; `None` where they have not its form.
#[tactic(auto, unfolding(crate::specs::FormSteps::form_by))]
pub(crate) fn form_by<'a>(
    alloc: Global,
    keyword: Keyword,
    line: &'a [u8],
    tokens: &[Token],
) -> Result<Option<Written<'a>>, AllocError>
    requires { AllByRecursion (IsTokenIn line.now) tokens.now }
    ensures { IfOk result (λ found. found ≡ form_by keyword (lexemes_of line.now tokens.now)) }
{
    match keyword {
        Keyword::Space => Ok(space_at(line, tokens)),
        Keyword::Proc => Ok(proc_at(line, tokens)),
        Keyword::Policy => Ok(policy_at(line, tokens)),
        Keyword::Place => Ok(place_at(line, tokens)),
        Keyword::Array => Ok(array_at(line, tokens)),
        Keyword::Same => Ok(same_at(line, tokens)),
        Keyword::Drop => Ok(name_at(line, tokens).map(Written::Drop)),
        Keyword::Move => Ok(move_at(line, tokens)),
        Keyword::Region => Ok(alone(Written::Region, tokens)),
        Keyword::Task => task_at(alloc, line, tokens),
        Keyword::End => Ok(alone(Written::End, tokens)),
        Keyword::Print => Ok(name_at(line, tokens).map(Written::Print)),
        Keyword::Sum => Ok(name_at(line, tokens).map(Written::Sum)),
        Keyword::Moved => Ok(alone(Written::Moved, tokens)),
    }
}
