ghost use Rattle.std.specs.Prelude.{◌≡◌, ℤ, true, IfSome};
ghost use Rattle.std.specs.Option.{option_map};
ghost use Rattle.std.specs.List.{AllByRecursion};
ghost use Rattle.dd_tokens.specs.TokenIn.{IsTokenIn};
ghost use Rattle.dd_tokens.specs.Lexeme.{lexemes_of};
ghost use Rattle.dd_script.specs.Numbers.{index_fits};
ghost use Rattle.dd_script.specs.Pieces.{range_of};
ghost use Rattle.dd_script.specs.ViewSteps.{run_at, numbers_at, index_at};

use crate::mark::mark;
use crate::numeral::{Numeral, numeral_at};
use dd_tokens::Token;
use dd_views::Range;

/// The rows or the columns of a view as they stand in a line.
#[derive(Drop)]
pub(crate) enum Index<'a> {
    /// `:`
    All,
    /// `3`
    One(Numeral<'a>),
    /// `1:3`
    Run {
        first: Numeral<'a>,
        last: Numeral<'a>,
    },
    /// `1:2:5`
    Steps {
        first: Numeral<'a>,
        step: Numeral<'a>,
        last: Numeral<'a>,
    },
}

impl Index<'_> {
    /// Whether its numbers are in the range of an `i64`.
    pub(crate) fn fits(&self) -> bool
        ensures { result ≡ index_fits self.now }
    {
        match self {
            Index::All => true,
            Index::One(i) => i.fits(),
            Index::Run { first, last } => first.fits() && last.fits(),
            Index::Steps { first, step, last } => first.fits() && step.fits() && last.fits(),
        }
    }

    pub(crate) fn range(&self) -> Range
        requires { index_fits self.now ≡ true }
        ensures { result ≡ range_of self.now }
    {
        match self {
            Index::All => Range::All,
            Index::One(i) => Range::One(i.value()),
            Index::Run { first, last } => Range::Run {
                first: first.value(),
                last: last.value(),
            },
            Index::Steps { first, step, last } => Range::Steps {
                first: first.value(),
                step: step.value(),
                last: last.value(),
            },
        }
    }
}

/// `:`, `3`, `1:3` or `1:2:5`.
#[tactic(auto, unfolding(crate::specs::ViewSteps::index_at))]
pub(crate) fn index_at<'a, 't>(
    line: &'a [u8],
    tokens: &'t [Token],
) -> Option<(Index<'a>, &'t [Token])>
    requires { AllByRecursion (IsTokenIn line.now) tokens.now }
    ensures value { option_map (λ x. (x.0, lexemes_of line.now x.1.now)) result ≡ index_at (lexemes_of line.now tokens.now) }
    ensures rest { IfSome result (λ x. AllByRecursion (IsTokenIn line.now) x.1.now) }
{
    match mark(b':', line, tokens) {
        Some(rest) => Some((Index::All, rest)),
        None => numbers_at(line, tokens),
    }
}

/// One to three numbers with `:` between them.
#[tactic(auto, unfolding(crate::specs::ViewSteps::numbers_at))]
fn numbers_at<'a, 't>(line: &'a [u8], tokens: &'t [Token]) -> Option<(Index<'a>, &'t [Token])>
    requires { AllByRecursion (IsTokenIn line.now) tokens.now }
    ensures value { option_map (λ x. (x.0, lexemes_of line.now x.1.now)) result ≡ numbers_at (lexemes_of line.now tokens.now) }
    ensures rest { IfSome result (λ x. AllByRecursion (IsTokenIn line.now) x.1.now) }
{
    let (first, rest) = numeral_at(line, tokens)?;
    match mark(b':', line, rest) {
        Some(behind) => run_at(first, line, behind),
        None => Some((Index::One(first), rest)),
    }
}

/// What stands behind `1:`.
#[tactic(auto, unfolding(crate::specs::ViewSteps::run_at))]
fn run_at<'a, 't>(
    first: Numeral<'a>,
    line: &'a [u8],
    tokens: &'t [Token],
) -> Option<(Index<'a>, &'t [Token])>
    requires { AllByRecursion (IsTokenIn line.now) tokens.now }
    ensures value { option_map (λ x. (x.0, lexemes_of line.now x.1.now)) result ≡ run_at first.entry (lexemes_of line.now tokens.now) }
    ensures rest { IfSome result (λ x. AllByRecursion (IsTokenIn line.now) x.1.now) }
{
    let (second, rest) = numeral_at(line, tokens)?;
    match mark(b':', line, rest) {
        Some(behind) => {
            let (last, rest) = numeral_at(line, behind)?;
            Some((
                Index::Steps {
                    first,
                    step: second,
                    last,
                },
                rest,
            ))
        }
        None => Some((
            Index::Run {
                first,
                last: second,
            },
            rest,
        )),
    }
}
