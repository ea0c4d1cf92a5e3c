//! The token that a piece of a line begins with.

ghost use Rattle.std.specs.Prelude.{◌≡◌, ◌<◌, ◌≤◌, length, IfSome};
ghost use Rattle.dd_tokens.specs.Bytes.{is_letter, is_mark};
ghost use Rattle.dd_tokens.specs.Tokens.{begins, front_token, number_len};

use crate::byte::{digits_len, is_letter, is_mark, word_bytes_len};
use crate::token::TokenKind;

/// The most bytes of a word.
const WORD_LIMIT: usize = 64;

/// The kind of the token at the front and how many bytes it takes, or `None` where no token stands there.
pub(crate) fn front_token(bytes: &[u8]) -> Option<(TokenKind, usize)>
    ensures value { result ≡ front_token bytes.now }
    ensures within { IfSome result (λ t. (0 < t.1) × (t.1 ≤ length bytes.now)) }
{
    if begins_with_mark(bytes) {
        Some((TokenKind::Mark, 1))
    } else if begins_with_letter(bytes) {
        let len = word_bytes_len(bytes);
        (len <= WORD_LIMIT).then_some((TokenKind::Word, len))
    } else {
        number_len(bytes).map(|len| (TokenKind::Number, len))
    }
}

fn number_len(bytes: &[u8]) -> Option<usize>
    ensures { result ≡ number_len bytes.now }
{
    let sign = usize::from(bytes.first() == Some(&b'-'));
    let digits = digits_len(&bytes[sign..]);
    let len = sign + digits;
    (digits > 0 && !begins_with_letter(&bytes[len..])).then_some(len)
}

fn begins_with_mark(bytes: &[u8]) -> bool
    ensures { result ≡ begins is_mark bytes.now }
{
    matches!(bytes, [first, ..] if is_mark(*first))
}

fn begins_with_letter(bytes: &[u8]) -> bool
    ensures { result ≡ begins is_letter bytes.now }
{
    matches!(bytes, [first, ..] if is_letter(*first))
}
