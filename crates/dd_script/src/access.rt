//! What the words of an argument mean.

ghost use Rattle.std.specs.Prelude.{◌≡◌, true, Some, IfOk, IfErr};
ghost use Rattle.dd_script.specs.Numbers.{view_fits};
ghost use Rattle.dd_script.specs.Pieces.{mode_named, part_named, pair_piece, word_piece};
ghost use Rattle.dd_script.specs.PieceFaults.{IsPartFault};

use crate::piece::Piece;
use crate::viewed::Viewed;
use crate::word::{Word, is_word};
use dd_kernels::Mode;
use dd_tokens::LineFault;
use dd_views::Part;
use std::alloc::Global;

/// The access that a word names.
#[tactic(auto, unfolding(crate::specs::Pieces::mode_named))]
fn mode_named(word: &[u8]) -> Option<Mode>
    ensures { result ≡ mode_named word.now }
{
    if is_word(word, b"In") {
        Some(Mode::Read)
    } else if is_word(word, b"Out") {
        Some(Mode::Write)
    } else if is_word(word, b"InOut") {
        Some(Mode::Both)
    } else {
        None
    }
}

/// The part that a word names.
#[tactic(auto, unfolding(crate::specs::Pieces::part_named))]
fn part_named(word: &[u8]) -> Option<Part>
    ensures { result ≡ part_named word.now }
{
    if is_word(word, b"all") {
        Some(Part::All)
    } else if is_word(word, b"lower") {
        Some(Part::Lower)
    } else if is_word(word, b"upper") {
        Some(Part::Upper)
    } else if is_word(word, b"unitlower") {
        Some(Part::UnitLower)
    } else if is_word(word, b"unitupper") {
        Some(Part::UnitUpper)
    } else if is_word(word, b"diag") {
        Some(Part::Diag)
    } else {
        None
    }
}

/// The access of a view with an access word and a part.
#[tactic(auto, unfolding(crate::specs::Pieces::pair_piece))]
pub(crate) fn pair_piece(
    alloc: Global,
    view: &Viewed,
    access: &Word,
    part: &Word,
) -> Result<Piece, LineFault>
    requires { view_fits view.now ≡ true }
    ensures ok { IfOk result (λ found. pair_piece view.now access.now part.now ≡ Some found) }
    ensures err { IfErr result (λ e. IsPartFault e (pair_piece view.now access.now part.now)) }
{
    let Some(mode) = mode_named(access.as_bytes()) else {
        return Err(LineFault::UnknownPart);
    };
    let Some(part) = part_named(part.as_bytes()) else {
        return Err(LineFault::UnknownPart);
    };
    Ok(view.piece(alloc, mode, part)?)
}

/// The access of a view with one word.
#[tactic(auto, unfolding(crate::specs::Pieces::word_piece))]
pub(crate) fn word_piece(alloc: Global, word: &Word, view: &Viewed) -> Result<Piece, LineFault>
    requires { view_fits view.now ≡ true }
    ensures ok { IfOk result (λ found. word_piece word.now view.now ≡ Some found) }
    ensures err { IfErr result (λ e. IsPartFault e (word_piece word.now view.now)) }
{
    match mode_named(word.as_bytes()) {
        Some(mode) => Ok(view.piece(alloc, mode, Part::All)?),
        None => match part_named(word.as_bytes()) {
            Some(part) => Ok(view.piece(alloc, Mode::Read, part)?),
            None => Err(LineFault::UnknownPart),
        },
    }
}
