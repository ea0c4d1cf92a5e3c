ghost use Rattle.std.specs.Prelude.{◌≡◌, true, IfSome};
ghost use Rattle.std.specs.Option.{option_map};
ghost use Rattle.std.specs.List.{AllByRecursion};
ghost use Rattle.dd_tokens.specs.TokenIn.{IsTokenIn};
ghost use Rattle.dd_tokens.specs.Lexeme.{lexemes_of};
ghost use Rattle.dd_script.specs.Numbers.{filling_fits};
ghost use Rattle.dd_script.specs.Reads.{fill_of};
ghost use Rattle.dd_script.specs.FormSteps.{filling_by, filling_at};

use crate::numeral::{Numeral, numeral_at};
use crate::word::{is_word, word_at};
use dd_blocks::Fill;
use dd_tokens::Token;

/// The first contents of an array as they stand in a line.
#[derive(Drop)]
pub(crate) enum Filling<'a> {
    Zeros,
    Const(Numeral<'a>),
    Iota,
    Lcg(Numeral<'a>),
}

impl Filling<'_> {
    /// Whether its number is in the range of an `i64`.
    pub(crate) fn fits(&self) -> bool
        ensures { result ≡ filling_fits self.now }
    {
        match self {
            Filling::Zeros | Filling::Iota => true,
            Filling::Const(number) | Filling::Lcg(number) => number.fits(),
        }
    }

    pub(crate) fn fill(&self) -> Fill
        requires { filling_fits self.now ≡ true }
        ensures { result ≡ fill_of self.now }
    {
        match self {
            Filling::Zeros => Fill::Zeros,
            Filling::Const(value) => Fill::Const(value.value()),
            Filling::Iota => Fill::Iota,
            Filling::Lcg(seed) => Fill::Lcg(seed.value()),
        }
    }
}

/// `zeros`, `const 1`, `iota` or `lcg 1`.
#[tactic(auto, unfolding(crate::specs::FormSteps::filling_at))]
pub(crate) fn filling_at<'a, 't>(
    line: &'a [u8],
    tokens: &'t [Token],
) -> Option<(Filling<'a>, &'t [Token])>
    requires { AllByRecursion (IsTokenIn line.now) tokens.now }
    ensures value { option_map (λ x. (x.0, lexemes_of line.now x.1.now)) result ≡ filling_at (lexemes_of line.now tokens.now) }
    ensures rest { IfSome result (λ x. AllByRecursion (IsTokenIn line.now) x.1.now) }
{
    let (word, rest) = word_at(line, tokens)?;
    filling_by(word.as_bytes(), line, rest)
}

/// What stands behind that word.
#[tactic(auto, unfolding(crate::specs::FormSteps::filling_by))]
fn filling_by<'a, 't>(
    word: &[u8],
    line: &'a [u8],
    tokens: &'t [Token],
) -> Option<(Filling<'a>, &'t [Token])>
    requires { AllByRecursion (IsTokenIn line.now) tokens.now }
    ensures value { option_map (λ x. (x.0, lexemes_of line.now x.1.now)) result ≡ filling_by word.now (lexemes_of line.now tokens.now) }
    ensures rest { IfSome result (λ x. AllByRecursion (IsTokenIn line.now) x.1.now) }
{
    if is_word(word, b"zeros") {
        Some((Filling::Zeros, tokens))
    } else if is_word(word, b"const") {
        let (value, rest) = numeral_at(line, tokens)?;
        Some((Filling::Const(value), rest))
    } else if is_word(word, b"iota") {
        Some((Filling::Iota, tokens))
    } else if is_word(word, b"lcg") {
        let (seed, rest) = numeral_at(line, tokens)?;
        Some((Filling::Lcg(seed), rest))
    } else {
        None
    }
}
