ghost use Rattle.std.specs.Prelude.{◌≡◌, ◌≤◌, ◌==◌, length};
ghost use Rattle.std.specs.List.{position_or_len};
ghost use Rattle.dd_tokens.specs.Bytes.{before_comment};

/// The bytes before the first `#`. Those behind it are not looked at.
pub(crate) fn before_comment(line: &[u8]) -> &[u8]
    ensures { result.now ≡ before_comment line.now }
{
    &line[..comment_start(line)]
}

/// The place of the first `#`, or the line's length where there is none.
fn comment_start(line: &[u8]) -> usize
    ensures place { result ≡ position_or_len (λ b. b == 35) line.now }
    ensures within { result ≤ length line.now }
{
    line.iter()
        .take_while(|byte| !begins_comment(**byte))
        .count()
}

fn begins_comment(byte: u8) -> bool
    ensures { result ≡ (byte == 35) }
{
    byte == b'#'
}
