//! A mark of a line, such as a comma or a bracket.
ghost use Rattle.std.specs.Prelude.{◌≡◌, Option, IfSome};
ghost use Rattle.std.specs.Option.{option_map};
ghost use Rattle.std.specs.List.{AllByRecursion};
ghost use Rattle.dd_tokens.specs.TokenIn.{IsTokenIn};
ghost use Rattle.dd_tokens.specs.Lexeme.{lexemes_of};
ghost use Rattle.dd_script.specs.Front.{mark_at};

use dd_tokens::{Token, TokenKind, text};

/// The tokens behind a mark at the front, where it is the wanted one.
#[tactic(auto, unfolding(crate::specs::Front::mark_at))]
pub(crate) fn mark<'t>(wanted: u8, line: &[u8], tokens: &'t [Token]) -> Option<&'t [Token]>
    requires { AllByRecursion (IsTokenIn line.now) tokens.now }
    ensures value { option_map (λ x. lexemes_of line.now x.now) result ≡ mark_at wanted (lexemes_of line.now tokens.now) }
    ensures rest { IfSome result (λ x. AllByRecursion (IsTokenIn line.now) x.now) }
{
    match tokens {
        [first, rest @ ..] if first.kind == TokenKind::Mark && text(line, first)[0] == wanted =>
            Some(rest),
        _ => None,
    }
}
