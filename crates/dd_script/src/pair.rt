ghost use Rattle.std.specs.Prelude.{◌≡◌, IfSome, IfOk};
ghost use Rattle.std.specs.Option.{option_map};
ghost use Rattle.std.specs.List.{AllByRecursion};
ghost use Rattle.dd_tokens.specs.TokenIn.{IsTokenIn};
ghost use Rattle.dd_tokens.specs.Lexeme.{lexemes_of};
ghost use Rattle.dd_script.specs.ArgumentSteps.{no_pair, pair_at, pairs_at};

use crate::mark::mark;
use crate::word::{Word, word_at};
use dd_tokens::Token;
use dd_views::Items;
use std::alloc::{AllocError, Global};

/// How a part of a view is used, as it stands in a line: `In(lower)`.
#[derive(Drop)]
pub(crate) struct Pair<'a> {
    pub(crate) access: Word<'a>,
    pub(crate) part: Word<'a>,
}

/// `, In(lower)`.
#[tactic(auto, unfolding(crate::specs::ArgumentSteps::pair_at))]
pub(crate) fn pair_at<'a, 't>(
    line: &'a [u8],
    tokens: &'t [Token],
) -> Option<(Pair<'a>, &'t [Token])>
    requires { AllByRecursion (IsTokenIn line.now) tokens.now }
    ensures value { option_map (λ x. (x.0, lexemes_of line.now x.1.now)) result ≡ pair_at (lexemes_of line.now tokens.now) }
    ensures rest { IfSome result (λ x. AllByRecursion (IsTokenIn line.now) x.1.now) }
{
    let inside = mark(b',', line, tokens)?;
    let (access, rest) = word_at(line, inside)?;
    let opened = mark(b'(', line, rest)?;
    let (part, rest) = word_at(line, opened)?;
    let rest = mark(b')', line, rest)?;
    Some((Pair { access, part }, rest))
}

/// Whether no further pair begins.
#[tactic(auto, unfolding(crate::specs::ArgumentSteps::no_pair))]
fn no_pair(line: &[u8], tokens: &[Token]) -> bool
    requires { AllByRecursion (IsTokenIn line.now) tokens.now }
    ensures { result ≡ no_pair (lexemes_of line.now tokens.now) }
{
    mark(b',', line, tokens).is_none()
}

/// All pairs at the front.
pub(crate) fn pairs_at<'a, 't>(
    alloc: Global,
    line: &'a [u8],
    tokens: &'t [Token],
) -> Result<Option<(Items<Pair<'a>>, &'t [Token])>, AllocError>
    requires { AllByRecursion (IsTokenIn line.now) tokens.now }
    ensures value { IfOk result (λ found. option_map (λ x. (x.0, lexemes_of line.now x.1.now)) found ≡ pairs_at (lexemes_of line.now tokens.now)) }
    ensures rest { IfOk result (λ found. IfSome found (λ x. AllByRecursion (IsTokenIn line.now) x.1.now)) }
{
    let mut pairs = Items::of(Vec::new(alloc));
    let mut rest = tokens;
    while !no_pair(line, rest) {
        let Some((pair, behind)) = pair_at(line, rest) else {
            return Ok(None);
        };
        pairs.push(pair)?;
        rest = behind;
    }
    Ok(Some((pairs, rest)))
}
