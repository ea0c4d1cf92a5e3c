//! How a line is cut into its tokens.

ghost use Rattle.std.specs.Prelude.{◌≡◌, ℕ, ◌+◌, ◌<◌, ◌≤◌, ◌^◌, List, [], length, None, Ok, Err, All, IfOk, IfErr, IfSome, vec_capacity};
ghost use Rattle.dd_tokens.specs.declared.fault.LineFault.TheVariants.{BadForm, Memory};
ghost use Rattle.dd_tokens.specs.declared.token.Token.{Token};
ghost use Rattle.dd_tokens.specs.Bytes.{IsText};
ghost use Rattle.dd_tokens.specs.Cutting.{IsCuttingOf};
ghost use Rattle.dd_tokens.specs.NextToken.{IsNextToken};
ghost use Rattle.dd_tokens.specs.TokenIn.{IsTokenIn};
ghost use Rattle.dd_tokens.specs.Tokens.{AreTokens, AreTokensOf, IsTokenFault};

use crate::byte::{blanks_len, is_all_text};
use crate::comment::before_comment;
use crate::fault::LineFault;
use crate::front::front_token;
use crate::token::Token;
use std::alloc::Global;

/// Cuts a line into its tokens, in order.
///
/// # Errors
/// `NotText` and `BadForm`, the first where both hold, and want of memory.
pub fn tokens(alloc: Global, line: &[u8]) -> Result<Vec<Token>, LineFault>
    requires { length line.now < 2 ^ 32 }
    ensures cut { IfOk result (λ ts. IsText line.now × AreTokensOf line.now ts.items) }

    // No other list is the line's.
    ensures only { IfOk result (λ ts. (us : List Token) → AreTokensOf line.now us → us ≡ ts.items) }

    // They are the longest pieces of the line, with blanks outside them, and no other list of pieces is that.
    ensures pieces { IfOk result (λ ts. IsCuttingOf line.now ts.items) }
    ensures no_others { IfOk result (λ ts. (us : List Token) → IsCuttingOf line.now us → us ≡ ts.items) }

    // Each token can be read at its place.
    ensures inside { IfOk result (λ ts. All (IsTokenIn line.now) ts.items) }

    ensures fault { IfErr result (λ e. IsTokenFault e line.now) }

    // A line without tokens takes no memory.
    ensures memory { result ≡ Err Memory → AreTokensOf line.now [] → ⊥ }
    ensures room { IfOk result (λ ts. ts.items ≡ [] → vec_capacity ts ≡ 0) }
{
    let code = before_comment(line);
    if !is_all_text(code) {
        return Err(LineFault::NotText);
    }
    let mut done = Vec::new(alloc);
    let mut at = 0;
    while let Some(token) = next_token(&code[at..], at)? {
        at = token.end();
        done.push(token)?;
    }
    Ok(done)
}

/// The first token of the bytes that begin at a place of their line, or `None` where they are blank.
fn next_token(rest: &[u8], at: usize) -> Result<Option<Token>, LineFault>
    requires { at + length rest.now < 2 ^ 32 }
    ensures next { IfOk result (λ next. IfSome next (IsNextToken at rest.now)) }
    ensures within { IfOk result
        (λ next. IfSome next (λ t. (at < t.first + t.count) × (t.first + t.count ≤ at + length rest.now))) }
    ensures blank { result ≡ Ok None → AreTokens at rest.now [] }
    ensures fault { IfErr result
        (λ e. (e ≡ BadForm) × ((ts : List Token) → AreTokens at rest.now ts → ⊥)) }
{
    let blanks = blanks_len(rest);
    if blanks == rest.len() {
        return Ok(None);
    }
    match front_token(&rest[blanks..]) {
        Some((kind, count)) => Ok(Some(Token {
            kind,
            first: (at + blanks) as u32,
            count: count as u32,
        })),
        None => Err(LineFault::BadForm),
    }
}
