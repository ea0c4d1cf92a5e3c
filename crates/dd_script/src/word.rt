ghost use Rattle.std.specs.Prelude.{◌≡◌, Option, IfSome};
ghost use Rattle.std.specs.Option.{option_map};
ghost use Rattle.std.specs.List.{AllByRecursion};
ghost use Rattle.std.specs.Str.{bytes_eq};
ghost use Rattle.dd_tokens.specs.TokenIn.{IsTokenIn};
ghost use Rattle.dd_tokens.specs.Lexeme.{lexemes_of};
ghost use Rattle.dd_script.specs.Front.{word_at};

use dd_tokens::{Token, TokenKind, text};
use std::marker::Model;

/// A word as it stands in a line. Contracts see it as its bytes.
#[derive(Drop)]
pub(crate) struct Word<'a> {
    bytes: &'a [u8],
}

impl<'a> Model for Word<'a> {
    ghost use Rattle.std.specs.Prelude.{ℕ, List};

    ghost Value = { List ℕ };

    ghost view = { λ w. w.bytes.now };
}

impl<'a> Word<'a> {
    fn of(bytes: &'a [u8]) -> Word<'a>
        ensures { result ≡ bytes.now }
    {
        Word { bytes }
    }

    pub(crate) fn as_bytes(&self) -> &[u8]
        ensures { result.now ≡ self.now }
    {
        self.bytes
    }
}

/// A word at the front, and the tokens behind it.
#[tactic(auto, unfolding(crate::specs::Front::word_at))]
pub(crate) fn word_at<'a, 't>(
    line: &'a [u8],
    tokens: &'t [Token],
) -> Option<(Word<'a>, &'t [Token])>
    requires { AllByRecursion (IsTokenIn line.now) tokens.now }
    ensures value { option_map (λ x. (x.0, lexemes_of line.now x.1.now)) result ≡ word_at (lexemes_of line.now tokens.now) }
    ensures rest { IfSome result (λ x. AllByRecursion (IsTokenIn line.now) x.1.now) }
{
    match tokens {
        [first, rest @ ..] if first.kind == TokenKind::Word => {
            Some((Word::of(text(line, first)), rest))
        }
        _ => None,
    }
}

/// Whether two words are one.
pub(crate) fn is_word(found: &[u8], wanted: &[u8]) -> bool
    ensures { result ≡ bytes_eq found.now wanted.now }
{
    found == wanted
}
