//! Lines, cut into tokens.
use dd_tokens::{LineFault, TokenKind, number, text, tokens};
use std::alloc::{AllocError, Global};
use std::fmt::Write;
use std::process::Abort;
use std::test::Fail;

/// A word of 64 bytes.
const LONGEST: &[u8] = b"ABCDEFGHIJKLMNOPQRSTUVWXYZabcdefghijklmnopqrstuvwxyz0123456789__";

/// The same with one letter more.
const TOO_LONG: &[u8] = b"ABCDEFGHIJKLMNOPQRSTUVWXYZabcdefghijklmnopqrstuvwxyz0123456789__z";

/// Forty zeros and a seven.
const LONG_SEVEN: &[u8] = b"00000000000000000000000000000000000000007";

/// The class of each byte below 80 in hexadecimal, sixteen to a row: a letter (`w`), a digit, a mark, a blank,
/// another byte that shows (`o`), the minus, the `#`, or no text (`x`). The bytes from 80 on are no text.
const CLASSES: [&[u8; 16]; 8] = [
    b"xxxxxxxxxbxxxbxx",
    b"xxxxxxxxxxxxxxxx",
    b"boo#oooommoom-oo",
    b"ddddddddddmooooo",
    b"owwwwwwwwwwwwwww",
    b"wwwwwwwwwwwmomow",
    b"owwwwwwwwwwwwwww",
    b"wwwwwwwwwwwoooox",
];

/// The class of a byte, by the table.
fn class_of(byte: u8) -> u8 {
    match CLASSES.get(usize::from(byte / 16)) {
        Some(row) => row[usize::from(byte % 16)],
        None => b'x',
    }
}

/// What the line `a 1` is cut into once a byte of the class stands at its first, second or third place.
fn with_class(class: u8) -> [&'static str; 3] {
    match class {
        b'w' => ["w0+1 n2+1 ", "w0+3 ", "w0+1 w2+1 "],
        b'd' => ["n0+1 n2+1 ", "w0+3 ", "w0+1 n2+1 "],
        b'm' => ["m0+1 n2+1 ", "w0+1 m1+1 n2+1 ", "w0+1 m2+1 "],
        b'b' => ["n2+1 ", "w0+1 n2+1 ", "w0+1 "],
        b'o' => ["BadForm", "BadForm", "BadForm"],
        b'-' => ["BadForm", "w0+1 n1+2 ", "BadForm"],
        b'#' => ["", "w0+1 ", "w0+1 "],
        b'x' => ["NotText", "NotText", "NotText"],
        _ => ["no class", "no class", "no class"],
    }
}

/// What a line is cut into: each token by the letter of its kind, its place and its length, or the fault.
fn cutting(rt: &impl Abort, alloc: Global, line: &[u8]) -> Result<String, AllocError> {
    assert!(rt; line.len() < 1 << 32);
    let mut out = String::new(alloc);
    match tokens(alloc, line) {
        Ok(tokens) => {
            for token in &tokens {
                let kind = match token.kind {
                    TokenKind::Word => 'w',
                    TokenKind::Number => 'n',
                    TokenKind::Mark => 'm',
                };
                let first = token.first;
                let count = token.count;
                write!(out, "{kind}{first}+{count} ")?;
            }
        }
        Err(fault) => write!(out, "{fault:?}")?,
    }
    Ok(out)
}

/// The bytes of a line's tokens, each with a `|` behind it.
fn texts(rt: &impl Abort, alloc: Global, line: &[u8]) -> Result<Vec<u8>, LineFault> {
    assert!(rt; line.len() < 1 << 32);
    let mut out = Vec::new(alloc);
    for token in &tokens(alloc, line)? {
        out.extend_from_slice(text(line, token))?;
        out.push(b'|')?;
    }
    Ok(out)
}

/// The value of a line's first token, where that is a number in range.
fn first_number(rt: &impl Abort, alloc: Global, line: &[u8]) -> Result<Option<i64>, LineFault> {
    assert!(rt; line.len() < 1 << 32);
    let tokens = tokens(alloc, line)?;
    match tokens.first() {
        Some(token) if token.kind == TokenKind::Number => Ok(number(line, token)),
        _ => Ok(None),
    }
}

#[test]
fn lines_are_cut(rt: HostRuntime) -> Result<(), Fail> {
    let rows: [(&str, &[u8], &str); 46] = [
        (
            "every kind",
            b"V[1,4:-1:1]",
            "w0+1 m1+1 n2+1 m3+1 n4+1 m5+1 n6+2 m8+1 n9+1 m10+1 ",
        ),
        ("all marks", b"()[],:", "m0+1 m1+1 m2+1 m3+1 m4+1 m5+1 "),
        ("an empty line", b"", ""),
        ("blanks of each kind", b" \t\r \r\t", ""),
        ("blanks around", b" \t ab \r 12\t", "w3+2 n8+2 "),
        ("a return at the end", b"a\r", "w0+1 "),
        ("a comment alone", b"# all", ""),
        ("a comment behind blanks", b"\t #", ""),
        ("a comment behind a word", b"a # b", "w0+1 "),
        ("a comment right behind a word", b"ab#c", "w0+2 "),
        ("a comment right behind a number", b"-12#3", "n0+3 "),
        ("a comment right behind a mark", b"[#]", "m0+1 "),
        ("a second comment", b"a # b # c", "w0+1 "),
        ("no tokens in a comment", b"a # 1x - +", "w0+1 "),
        (
            "no text in a comment",
            b"a #\x7f\x80\xff\x00\x01\n",
            "w0+1 ",
        ),
        ("the longest word", LONGEST, "w0+64 "),
        ("a word too long", TOO_LONG, "BadForm"),
        (
            "words of underscores",
            b"_ __ _a1_ a_",
            "w0+1 w2+2 w5+4 w10+2 ",
        ),
        ("digits in a word", b"a1 1", "w0+2 n3+1 "),
        ("a word by a mark", b"a(b)", "w0+1 m1+1 w2+1 m3+1 "),
        ("a letter right behind a number", b"12x", "BadForm"),
        ("an underscore right behind a number", b"12_", "BadForm"),
        ("a letter right behind a signed number", b"-1a", "BadForm"),
        (
            "a letter behind a number and a blank",
            b"12 x",
            "n0+2 w3+1 ",
        ),
        ("a mark right behind a number", b"1:2", "n0+1 m1+1 n2+1 "),
        ("two numbers", b"12-3", "n0+2 n2+2 "),
        ("two signed numbers", b"-1-2", "n0+2 n2+2 "),
        ("a number right behind a word", b"A-1", "w0+1 n1+2 "),
        ("zeros in front", LONG_SEVEN, "n0+41 "),
        ("zeros behind a sign", b"-007", "n0+4 "),
        ("a minus alone", b"-", "BadForm"),
        ("a minus behind a number", b"1-", "BadForm"),
        ("two signs", b"--1", "BadForm"),
        ("a minus before a blank", b"- 1", "BadForm"),
        ("a minus before a letter", b"-a", "BadForm"),
        ("a minus before a comment", b"-#1", "BadForm"),
        ("a plus", b"+1", "BadForm"),
        ("a byte 7F", b"a\x7f", "NotText"),
        ("a byte 80", b"\x80", "NotText"),
        ("a byte FF", b"1 \xff # 1", "NotText"),
        ("a byte 00", b"\x00a", "NotText"),
        ("a byte 01", b"a \x01", "NotText"),
        ("an end of line", b"a\nb", "NotText"),
        ("no text behind no tokens", b"1x \x80", "NotText"),
        ("no text before no tokens", b"\x80 1x", "NotText"),
        (
            "no text behind a word too long",
            b"ABCDEFGHIJKLMNOPQRSTUVWXYZabcdefghijklmnopqrstuvwxyz0123456789__z\x00",
            "NotText",
        ),
    ];
    for (name, line, wanted) in rows {
        let cut = cutting(&rt, rt.alloc(), line)?;
        assert_eq!(rt; cut.as_str(), wanted, "{name}");
    }
    Ok(())
}

#[test]
fn each_byte_has_its_class(rt: HostRuntime) -> Result<(), Fail> {
    for byte in 0..=u8::MAX {
        let lines = [[byte, b' ', b'1'], [b'a', byte, b'1'], [b'a', b' ', byte]];
        for (line, wanted) in lines.iter().zip(with_class(class_of(byte))) {
            let cut = cutting(&rt, rt.alloc(), line)?;
            assert_eq!(rt; cut.as_str(), wanted, "{line:?}");
        }
    }
    Ok(())
}

#[test]
fn texts_are_the_bytes(rt: HostRuntime) -> Result<(), Fail> {
    let rows: [(&[u8], &[u8]); 3] = [
        (b"V[1,4:-1:1]", b"V|[|1|,|4|:|-1|:|1|]|"),
        (b"\t spawn  f1(Out A) # (", b"spawn|f1|(|Out|A|)|"),
        (b" # a", b""),
    ];
    for (line, wanted) in rows {
        assert_eq!(rt; texts(&rt, rt.alloc(), line)?.as_slice(), wanted);
    }
    Ok(())
}

#[test]
fn numbers_have_their_values(rt: HostRuntime) -> Result<(), Fail> {
    let rows: [(&[u8], Option<i64>); 18] = [
        (b"0", Some(0)),
        (b"-0", Some(0)),
        (b"000", Some(0)),
        (b"7", Some(7)),
        (b"-12 3", Some(-12)),
        (b"  40]", Some(40)),
        (LONG_SEVEN, Some(7)),
        (b"-0000000000000000000000000000000000000000123", Some(-123)),
        (b"9223372036854775807", Some(i64::MAX)),
        (b"9223372036854775808", None),
        (b"-9223372036854775808", Some(i64::MIN)),
        (b"-9223372036854775809", None),
        (
            b"0000000000000000000000000000000000000000009223372036854775807",
            Some(i64::MAX),
        ),
        (
            b"0000000000000000000000000000000000000000009223372036854775808",
            None,
        ),
        (
            b"-0000000000000000000000000000000000000000009223372036854775808",
            Some(i64::MIN),
        ),
        (
            b"-0000000000000000000000000000000000000000009223372036854775809",
            None,
        ),
        (b"100000000000000000000000000000000000000000", None),
        (b"-100000000000000000000000000000000000000000", None),
    ];
    for (line, wanted) in rows {
        assert_eq!(rt; first_number(&rt, rt.alloc(), line)?, wanted);
    }
    Ok(())
}
