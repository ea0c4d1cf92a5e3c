ghost use Rattle.std.specs.Prelude.{◌≡◌, true, IfSome, FitsSigned, unsigned_abs};
ghost use Rattle.std.specs.Int.{w64};
ghost use Rattle.std.specs.Option.{option_map, SomeIff};
ghost use Rattle.std.specs.List.{AllByRecursion};
ghost use Rattle.dd_tokens.specs.TokenIn.{IsTokenIn};
ghost use Rattle.dd_tokens.specs.Lexeme.{lexemes_of};
ghost use Rattle.dd_script.specs.Int64.{fits_int64};
ghost use Rattle.dd_script.specs.Numbers.{is_limit};
ghost use Rattle.dd_script.specs.Front.{numeral_at};

use dd_tokens::{Token, TokenKind};
use std::marker::Model;

/// A number as it stands in a line. Contracts see it as its value, which may be of any size.
#[derive(Drop)]
pub(crate) struct Numeral<'a> {
    line: &'a [u8],
    token: Token,
}

impl<'a> Model for Numeral<'a> {
    ghost use Rattle.std.specs.Prelude.{◌≡◌, ℤ};
    ghost use Rattle.std.specs.Str.Parse.{signed_digits_value};
    ghost use Rattle.dd_tokens.specs.declared.token.TokenKind.TheVariants.{Number};
    ghost use Rattle.dd_tokens.specs.Lexeme.{token_bytes};
    ghost use Rattle.dd_tokens.specs.TokenIn.{IsTokenIn};

    ghost Value = { ℤ };

    ghost view = { λ n. signed_digits_value 10 (token_bytes n.line.now n.token) };

    ghost invariant = { λ n. IsTokenIn n.line.now n.token × (n.token.kind ≡ Number) };
}

impl Numeral<'_> {
    /// Its value, or `None` where it is out of the range of an `i64`.
    pub(crate) fn checked(&self) -> Option<i64>
        ensures { SomeIff result (FitsSigned w64 self.now) self.now }
    {
        dd_tokens::number(self.line, &self.token)
    }

    /// Whether it is in the range of an `i64`.
    pub(crate) fn fits(&self) -> bool
        ensures { result ≡ fits_int64 self.now }
    {
        self.checked().is_some()
    }

    /// Its value.
    pub(crate) fn value(&self) -> i64
        requires { fits_int64 self.now ≡ true }
        ensures { result ≡ self.now }
    {
        match self.checked() {
            Some(value) => value,
            None => unreachable!(),
        }
    }

    /// Its value, as the bytes that a space may have.
    pub(crate) fn limit(&self) -> u64
        requires { is_limit self.now ≡ true }
        ensures { result ≡ unsigned_abs self.now }
    {
        match self.checked() {
            Some(bytes) => bytes.unsigned_abs(),
            None => unreachable!(),
        }
    }

    /// Whether it is 1 to 2^40, the bytes that a space may have.
    pub(crate) fn is_limit(&self) -> bool
        ensures { result ≡ is_limit self.now }
    {
        match self.checked() {
            Some(bytes) => (1..=1 << 40).contains(&bytes),
            None => false,
        }
    }
}

/// A number at the front, and the tokens behind it.
#[tactic(auto, unfolding(crate::specs::Front::numeral_at))]
pub(crate) fn numeral_at<'a, 't>(
    line: &'a [u8],
    tokens: &'t [Token],
) -> Option<(Numeral<'a>, &'t [Token])>
    requires { AllByRecursion (IsTokenIn line.now) tokens.now }
    ensures value { option_map (λ x. (x.0, lexemes_of line.now x.1.now)) result ≡ numeral_at (lexemes_of line.now tokens.now) }
    ensures rest { IfSome result (λ x. AllByRecursion (IsTokenIn line.now) x.1.now) }
{
    match tokens {
        [first, rest @ ..] if first.kind == TokenKind::Number => {
            let token = *first;
            Some((Numeral { line, token }, rest))
        }
        _ => None,
    }
}
