//! What a token says: its bytes, and the value of a number.

ghost use Rattle.std.specs.Prelude.{◌≡◌, ◌+◌, ◌≤◌, length, FitsSigned};
ghost use Rattle.std.specs.Int.{w64};
ghost use Rattle.std.specs.Option.{SomeIff};
ghost use Rattle.std.specs.Str.Parse.{signed_digits_value};
ghost use Rattle.dd_tokens.specs.declared.token.TokenKind.TheVariants.{Number};
ghost use Rattle.dd_tokens.specs.Lexeme.{token_bytes};
ghost use Rattle.dd_tokens.specs.TokenIn.{IsTokenIn};

use crate::token::Token;

/// The bytes of a token of the line.
pub fn text<'a>(line: &'a [u8], token: &Token) -> &'a [u8]
    requires { token.now.first + token.now.count ≤ length line.now }
    ensures { result.now ≡ token_bytes line.now token.now }
{
    &line[token.first as usize..token.end()]
}

/// The value of a number of the line, or `None` where it is out of the range of an `i64`.
pub fn number(line: &[u8], token: &Token) -> Option<i64>
    requires inside { IsTokenIn line.now token.now }
    requires kind { token.now.kind ≡ Number }
    ensures { let value = signed_digits_value 10 (token_bytes line.now token.now) in
        SomeIff result (FitsSigned w64 value) value }
{
    match str::from_utf8(text(line, token)) {
        Ok(text) => text.parse().ok(),
        Err(_) => None,
    }
}
