ghost use Rattle.std.specs.Prelude.{◌≡◌, true, IfSome, IfOk};
ghost use Rattle.std.specs.Option.{option_map};
ghost use Rattle.std.specs.List.{AllByRecursion};
ghost use Rattle.dd_tokens.specs.TokenIn.{IsTokenIn};
ghost use Rattle.dd_tokens.specs.Lexeme.{lexemes_of};
ghost use Rattle.dd_script.specs.Numbers.{view_fits};
ghost use Rattle.dd_script.specs.Pieces.{piece};
ghost use Rattle.dd_script.specs.ViewSteps.{indexed_at, viewed_at, view_at};

use crate::index::{Index, index_at};
use crate::mark::mark;
use crate::piece::Piece;
use crate::word::{Word, word_at};
use dd_blocks::Name;
use dd_kernels::Mode;
use dd_tokens::Token;
use dd_views::{Part, Range};
use std::alloc::{AllocError, Global};

/// A view of an array as it stands in a line.
#[derive(Drop)]
pub(crate) enum Viewed<'a> {
    /// `A`
    Whole(Word<'a>),
    /// `A[1:3,:]`
    Indexed {
        name: Word<'a>,
        rows: Index<'a>,
        cols: Index<'a>,
    },
}

impl Viewed<'_> {
    /// Whether its numbers are in the range of an `i64`.
    pub(crate) fn fits(&self) -> bool
        ensures { result ≡ view_fits self.now }
    {
        match self {
            Viewed::Whole(_) => true,
            Viewed::Indexed { rows, cols, .. } => rows.fits() && cols.fits(),
        }
    }

    /// A part of it, used so.
    pub(crate) fn piece(&self, alloc: Global, mode: Mode, part: Part) -> Result<Piece, AllocError>
        requires { view_fits self.now ≡ true }
        ensures { IfOk result (λ found. found ≡ piece mode self.now part) }
    {
        match self {
            Viewed::Whole(name) => {
                let name = Name::of(alloc, name.as_bytes())?;
                Ok(Piece {
                    mode,
                    name,
                    rows: Range::All,
                    cols: Range::All,
                    part,
                })
            }
            Viewed::Indexed { name, rows, cols } => {
                let name = Name::of(alloc, name.as_bytes())?;
                Ok(Piece {
                    mode,
                    name,
                    rows: rows.range(),
                    cols: cols.range(),
                    part,
                })
            }
        }
    }
}

/// `A` or `A[1:3,:]`.
#[tactic(auto, unfolding(crate::specs::ViewSteps::view_at))]
pub(crate) fn view_at<'a, 't>(
    line: &'a [u8],
    tokens: &'t [Token],
) -> Option<(Viewed<'a>, &'t [Token])>
    requires { AllByRecursion (IsTokenIn line.now) tokens.now }
    ensures value { option_map (λ x. (x.0, lexemes_of line.now x.1.now)) result ≡ view_at (lexemes_of line.now tokens.now) }
    ensures rest { IfSome result (λ x. AllByRecursion (IsTokenIn line.now) x.1.now) }
{
    let (name, rest) = word_at(line, tokens)?;
    viewed_at(name, line, rest)
}

/// What stands behind `A`.
#[tactic(auto, unfolding(crate::specs::ViewSteps::viewed_at))]
pub(crate) fn viewed_at<'a, 't>(
    name: Word<'a>,
    line: &'a [u8],
    tokens: &'t [Token],
) -> Option<(Viewed<'a>, &'t [Token])>
    requires { AllByRecursion (IsTokenIn line.now) tokens.now }
    ensures value { option_map (λ x. (x.0, lexemes_of line.now x.1.now)) result ≡ viewed_at name.entry (lexemes_of line.now tokens.now) }
    ensures rest { IfSome result (λ x. AllByRecursion (IsTokenIn line.now) x.1.now) }
{
    match mark(b'[', line, tokens) {
        Some(inside) => indexed_at(name, line, inside),
        None => Some((Viewed::Whole(name), tokens)),
    }
}

/// What stands behind `A[`.
#[tactic(auto, unfolding(crate::specs::ViewSteps::indexed_at))]
fn indexed_at<'a, 't>(
    name: Word<'a>,
    line: &'a [u8],
    tokens: &'t [Token],
) -> Option<(Viewed<'a>, &'t [Token])>
    requires { AllByRecursion (IsTokenIn line.now) tokens.now }
    ensures value { option_map (λ x. (x.0, lexemes_of line.now x.1.now)) result ≡ indexed_at name.entry (lexemes_of line.now tokens.now) }
    ensures rest { IfSome result (λ x. AllByRecursion (IsTokenIn line.now) x.1.now) }
{
    let (rows, rest) = index_at(line, tokens)?;
    let between = mark(b',', line, rest)?;
    let (cols, rest) = index_at(line, between)?;
    let rest = mark(b']', line, rest)?;
    Some((Viewed::Indexed { name, rows, cols }, rest))
}
