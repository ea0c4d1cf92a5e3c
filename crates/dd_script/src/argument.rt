ghost use Rattle.std.specs.Prelude.{◌≡◌, ℕ, List, IfSome, IfOk};
ghost use Rattle.std.specs.Option.{option_map};
ghost use Rattle.std.specs.List.{AllByRecursion};
ghost use Rattle.dd_tokens.specs.TokenIn.{IsTokenIn};
ghost use Rattle.dd_tokens.specs.Lexeme.{lexemes_of};
ghost use Rattle.dd_script.specs.Numbers.{argument_fits};
ghost use Rattle.dd_script.specs.ArgumentSteps.{no_token, with_pairs_at, two_words_at, one_word_at, called_at, bare_at, argument_at, arguments_at};

use crate::mark::mark;
use crate::pair::{Pair, pair_at, pairs_at};
use crate::viewed::{Viewed, view_at, viewed_at};
use crate::word::{Word, word_at};
use dd_tokens::Token;
use dd_views::Items;
use std::alloc::{AllocError, Global};

/// An argument of a task as it stands in a line.
#[derive(Drop)]
pub(crate) enum Argument<'a> {
    /// `A[1:3,:]`
    Bare(Viewed<'a>),
    /// `In(A)`
    OneWord {
        word: Word<'a>,
        view: Viewed<'a>,
    },
    /// `In(lower(A))`
    TwoWords {
        outer: Word<'a>,
        inner: Word<'a>,
        view: Viewed<'a>,
    },
    /// `Deps(A, In(lower), Out(diag))`, with one pair or more
    WithPairs {
        word: Word<'a>,
        view: Viewed<'a>,
        first: Pair<'a>,
        others: Items<Pair<'a>>,
    },
}

impl Argument<'_> {
    /// Whether its numbers are in the range of an `i64`.
    pub(crate) fn fits(&self) -> bool
        ensures { result ≡ argument_fits self.now }
    {
        match self {
            Argument::Bare(view)
            | Argument::OneWord { view, .. }
            | Argument::TwoWords { view, .. }
            | Argument::WithPairs { view, .. } => view.fits(),
        }
    }
}

/// An argument in one of its four shapes.
#[tactic(auto, unfolding(crate::specs::ArgumentSteps::argument_at))]
fn argument_at<'a, 't>(
    alloc: Global,
    line: &'a [u8],
    tokens: &'t [Token],
) -> Result<Option<(Argument<'a>, &'t [Token])>, AllocError>
    requires { AllByRecursion (IsTokenIn line.now) tokens.now }
    ensures value { IfOk result (λ found. option_map (λ x. (x.0, lexemes_of line.now x.1.now)) found ≡ argument_at (lexemes_of line.now tokens.now)) }
    ensures rest { IfOk result (λ found. IfSome found (λ x. AllByRecursion (IsTokenIn line.now) x.1.now)) }
{
    let Some((first, rest)) = word_at(line, tokens) else {
        return Ok(None);
    };
    match mark(b'(', line, rest) {
        Some(inside) => called_at(alloc, first, line, inside),
        None => Ok(bare_at(first, line, rest)),
    }
}

/// What stands behind `A`.
#[tactic(auto, unfolding(crate::specs::ArgumentSteps::bare_at))]
fn bare_at<'a, 't>(
    name: Word<'a>,
    line: &'a [u8],
    tokens: &'t [Token],
) -> Option<(Argument<'a>, &'t [Token])>
    requires { AllByRecursion (IsTokenIn line.now) tokens.now }
    ensures value { option_map (λ x. (x.0, lexemes_of line.now x.1.now)) result ≡ bare_at name.entry (lexemes_of line.now tokens.now) }
    ensures rest { IfSome result (λ x. AllByRecursion (IsTokenIn line.now) x.1.now) }
{
    let (view, rest) = viewed_at(name, line, tokens)?;
    Some((Argument::Bare(view), rest))
}

/// What stands behind `In(`.
#[tactic(auto, unfolding(crate::specs::ArgumentSteps::called_at))]
fn called_at<'a, 't>(
    alloc: Global,
    word: Word<'a>,
    line: &'a [u8],
    tokens: &'t [Token],
) -> Result<Option<(Argument<'a>, &'t [Token])>, AllocError>
    requires { AllByRecursion (IsTokenIn line.now) tokens.now }
    ensures value { IfOk result (λ found. option_map (λ x. (x.0, lexemes_of line.now x.1.now)) found ≡ called_at word.entry (lexemes_of line.now tokens.now)) }
    ensures rest { IfOk result (λ found. IfSome found (λ x. AllByRecursion (IsTokenIn line.now) x.1.now)) }
{
    let Some((inner, rest)) = word_at(line, tokens) else {
        return Ok(None);
    };
    match mark(b'(', line, rest) {
        Some(inside) => Ok(two_words_at(word, inner, line, inside)),
        None => one_word_at(alloc, word, inner, line, rest),
    }
}

/// What stands behind `In(lower(`.
#[tactic(auto, unfolding(crate::specs::ArgumentSteps::two_words_at))]
fn two_words_at<'a, 't>(
    outer: Word<'a>,
    inner: Word<'a>,
    line: &'a [u8],
    tokens: &'t [Token],
) -> Option<(Argument<'a>, &'t [Token])>
    requires { AllByRecursion (IsTokenIn line.now) tokens.now }
    ensures value { option_map (λ x. (x.0, lexemes_of line.now x.1.now)) result ≡ two_words_at outer.entry inner.entry (lexemes_of line.now tokens.now) }
    ensures rest { IfSome result (λ x. AllByRecursion (IsTokenIn line.now) x.1.now) }
{
    let (view, rest) = view_at(line, tokens)?;
    let closed = mark(b')', line, rest)?;
    let rest = mark(b')', line, closed)?;
    Some((Argument::TwoWords { outer, inner, view }, rest))
}

/// What stands behind `In(A`.
#[tactic(auto, unfolding(crate::specs::ArgumentSteps::one_word_at))]
fn one_word_at<'a, 't>(
    alloc: Global,
    word: Word<'a>,
    name: Word<'a>,
    line: &'a [u8],
    tokens: &'t [Token],
) -> Result<Option<(Argument<'a>, &'t [Token])>, AllocError>
    requires { AllByRecursion (IsTokenIn line.now) tokens.now }
    ensures value { IfOk result (λ found. option_map (λ x. (x.0, lexemes_of line.now x.1.now)) found ≡ one_word_at word.entry name.entry (lexemes_of line.now tokens.now)) }
    ensures rest { IfOk result (λ found. IfSome found (λ x. AllByRecursion (IsTokenIn line.now) x.1.now)) }
{
    let Some((view, rest)) = viewed_at(name, line, tokens) else {
        return Ok(None);
    };
    match mark(b')', line, rest) {
        Some(behind) => Ok(Some((Argument::OneWord { word, view }, behind))),
        None => with_pairs_at(alloc, word, view, line, rest),
    }
}

/// What stands behind `Deps(A`.
#[tactic(auto, unfolding(crate::specs::ArgumentSteps::with_pairs_at))]
fn with_pairs_at<'a, 't>(
    alloc: Global,
    word: Word<'a>,
    view: Viewed<'a>,
    line: &'a [u8],
    tokens: &'t [Token],
) -> Result<Option<(Argument<'a>, &'t [Token])>, AllocError>
    requires { AllByRecursion (IsTokenIn line.now) tokens.now }
    ensures value { IfOk result (λ found. option_map (λ x. (x.0, lexemes_of line.now x.1.now)) found ≡ with_pairs_at word.entry view.entry (lexemes_of line.now tokens.now)) }
    ensures rest { IfOk result (λ found. IfSome found (λ x. AllByRecursion (IsTokenIn line.now) x.1.now)) }
{
    let Some((first, rest)) = pair_at(line, tokens) else {
        return Ok(None);
    };
    let Some((others, rest)) = pairs_at(alloc, line, rest)? else {
        return Ok(None);
    };
    let Some(rest) = mark(b')', line, rest) else {
        return Ok(None);
    };
    let argument = Argument::WithPairs {
        word,
        view,
        first,
        others,
    };
    Ok(Some((argument, rest)))
}

/// Whether no token is left.
fn no_token(tokens: &[Token]) -> bool
    ensures { (line : List ℕ) → result ≡ no_token (lexemes_of line tokens.now) }
{
    matches!(tokens, [])
}

/// All arguments that are left.
pub(crate) fn arguments_at<'a>(
    alloc: Global,
    line: &'a [u8],
    tokens: &[Token],
) -> Result<Option<Items<Argument<'a>>>, AllocError>
    requires { AllByRecursion (IsTokenIn line.now) tokens.now }
    ensures { IfOk result (λ found. found ≡ arguments_at (lexemes_of line.now tokens.now)) }
{
    let mut arguments = Items::of(Vec::new(alloc));
    let mut rest = tokens;
    while !no_token(rest) {
        let Some((argument, behind)) = argument_at(alloc, line, rest)? else {
            return Ok(None);
        };
        arguments.push(argument)?;
        rest = behind;
    }
    Ok(Some(arguments))
}
