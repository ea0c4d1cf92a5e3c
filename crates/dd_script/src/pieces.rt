//! The accesses that the arguments of a task stand for.

ghost use Rattle.std.specs.Prelude.{◌≡◌, true, ◌∷◌, IfErr, OnOk};
ghost use Rattle.std.specs.List.{list_all};
ghost use Rattle.std.specs.Str.{bytes_eq};
ghost use Rattle.dd_script.specs.declared.pair.Pair.{Pair};
ghost use Rattle.dd_script.specs.Numbers.{view_fits, argument_fits};
ghost use Rattle.dd_script.specs.Pieces.{only, pair_piece, gathered, deps_pieces, pieces_of};
ghost use Rattle.dd_script.specs.PieceFaults.{IsPartFault, Adds};

use crate::access::{pair_piece, word_piece};
use crate::argument::Argument;
use crate::pair::Pair;
use crate::piece::Piece;
use crate::viewed::Viewed;
use crate::word::is_word;
use dd_kernels::Mode;
use dd_tokens::LineFault;
use dd_views::{Items, Part};
use std::alloc::Global;

/// Adds the access of one pair of words.
fn add_pair(
    alloc: Global,
    pieces: &mut Items<Piece>,
    view: &Viewed,
    pair: &Pair,
) -> Result<(), LineFault>
    requires { view_fits view.now ≡ true }
    ensures ok { OnOk result (Adds (only (pair_piece view.now pair.now.access pair.now.part)) pieces.old pieces.new) }
    ensures err { IfErr result (λ e. IsPartFault e (only (pair_piece view.now pair.now.access pair.now.part))) }
{
    let piece = pair_piece(alloc, view, &pair.access, &pair.part)?;
    pieces.push(piece)?;
    Ok(())
}

/// Adds the accesses of pairs of words, in order.
fn add_pairs(
    alloc: Global,
    pieces: &mut Items<Piece>,
    view: &Viewed,
    pairs: &[Pair],
) -> Result<(), LineFault>
    requires { view_fits view.now ≡ true }
    ensures ok { OnOk result (Adds (gathered (λ (q : Pair). only (pair_piece view.now q.access q.part)) pairs.now) pieces.old pieces.new) }
    ensures err { IfErr result (λ e. IsPartFault e (gathered (λ (q : Pair). only (pair_piece view.now q.access q.part)) pairs.now)) }
{
    for pair in pairs {
        add_pair(alloc, pieces, view, pair)?;
    }
    Ok(())
}

/// Adds the accesses of an argument of several pairs.
#[tactic(auto, unfolding(crate::specs::Pieces::gathered))]
fn add_all(
    alloc: Global,
    pieces: &mut Items<Piece>,
    view: &Viewed,
    first: &Pair,
    others: &[Pair],
) -> Result<(), LineFault>
    requires { view_fits view.now ≡ true }
    ensures ok { OnOk result (Adds (gathered (λ (q : Pair). only (pair_piece view.now q.access q.part)) (first.now ∷ others.now)) pieces.old pieces.new) }
    ensures err { IfErr result (λ e. IsPartFault e (gathered (λ (q : Pair). only (pair_piece view.now q.access q.part)) (first.now ∷ others.now))) }
{
    add_pair(alloc, pieces, view, first)?;
    add_pairs(alloc, pieces, view, others)
}

/// Adds the accesses of an argument of several pairs, whose word must be `Deps`.
#[tactic(auto, unfolding(crate::specs::Pieces::deps_pieces))]
fn add_deps(
    alloc: Global,
    pieces: &mut Items<Piece>,
    word: &[u8],
    view: &Viewed,
    first: &Pair,
    others: &[Pair],
) -> Result<(), LineFault>
    requires { view_fits view.now ≡ true }
    ensures ok { OnOk result (Adds (deps_pieces word.now view.now (first.now ∷ others.now)) pieces.old pieces.new) }
    ensures err { IfErr result (λ e. IsPartFault e (deps_pieces word.now view.now (first.now ∷ others.now))) }
{
    if is_word(word, b"Deps") {
        add_all(alloc, pieces, view, first, others)
    } else {
        Err(LineFault::UnknownPart)
    }
}

/// Adds the accesses of an argument.
#[tactic(auto, unfolding(crate::specs::Pieces::pieces_of))]
fn add_argument(
    alloc: Global,
    pieces: &mut Items<Piece>,
    argument: &Argument,
) -> Result<(), LineFault>
    requires { argument_fits argument.now ≡ true }
    ensures ok { OnOk result (Adds (pieces_of argument.now) pieces.old pieces.new) }
    ensures err { IfErr result (λ e. IsPartFault e (pieces_of argument.now)) }
{
    match argument {
        Argument::Bare(view) => {
            let piece = view.piece(alloc, Mode::Read, Part::All)?;
            pieces.push(piece)?;
            Ok(())
        }
        Argument::OneWord { word, view } => {
            let piece = word_piece(alloc, word, view)?;
            pieces.push(piece)?;
            Ok(())
        }
        Argument::TwoWords { outer, inner, view } => {
            let piece = pair_piece(alloc, view, outer, inner)?;
            pieces.push(piece)?;
            Ok(())
        }
        Argument::WithPairs {
            word,
            view,
            first,
            others,
        } => add_deps(
            alloc,
            pieces,
            word.as_bytes(),
            view,
            first,
            others.as_slice(),
        ),
    }
}

/// Adds the accesses of a task's arguments, in order.
pub(crate) fn add_arguments(
    alloc: Global,
    pieces: &mut Items<Piece>,
    arguments: &[Argument],
) -> Result<(), LineFault>
    requires { list_all argument_fits arguments.now ≡ true }
    ensures ok { OnOk result (Adds (gathered pieces_of arguments.now) pieces.old pieces.new) }
    ensures err { IfErr result (λ e. IsPartFault e (gathered pieces_of arguments.now)) }
{
    for argument in arguments {
        add_argument(alloc, pieces, argument)?;
    }
    Ok(())
}
