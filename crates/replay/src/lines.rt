//! The lines of a text.
ghost use Rattle.std.specs.Prelude.{◌<◌, length};

use memchr::memchr;

/// The line that parts the script from the journal.
const BETWEEN: &[u8] = b"!!";

/// The first line of a text that isn't empty, without its line feed, and the text below it.
pub fn first_line(text: &[u8]) -> (&[u8], &[u8])
    requires { 0 < length text.now }
    ensures shorter { length result.1.now < length text.now }
{
    match memchr(b'\n', text) {
        Some(end) => (&text[..end], &text[end + 1..]),
        None => (text, &text[text.len()..]),
    }
}

/// The script above the first line that is `!!`, and the journal below it. Without such a line all is the script.
pub fn parts(input: &[u8]) -> (&[u8], &[u8]) {
    let mut rest = input;
    while !rest.is_empty() {
        let (line, below) = first_line(rest);
        if line == BETWEEN {
            return (&input[..input.len() - rest.len()], below);
        }
        rest = below;
    }
    (input, &[])
}
