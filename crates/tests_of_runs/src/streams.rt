//! Sources and sinks: those in memory, and those over a reader and a writer.
use dd_io::{
    IoFault, MemSink, MemSource, ReadEnd, Sink, Source, StdSink, StdSource, read_all, write_all,
};
use std::alloc::{AllocError, Global};
use std::io;
use std::io::{ErrorKind, Read, Write};
use std::test::Fail;

const MIB: usize = 1 << 20;

const LONG: Option<ReadEnd> = Some(ReadEnd::TooLong);

const FAULT: Option<ReadEnd> = Some(ReadEnd::ReadFault);

// Bytes that differ from their neighbours and from piece to piece.
fn pattern(alloc: Global, size: usize) -> Result<Vec<u8>, AllocError> {
    (0..size).map(|at| (at % 251) as u8).collect(alloc)
}

// Each row: the source's size, the most that a call gives, the calls that fail; the limit, why reading ended early, and
// how many bytes were taken then.
#[test]
fn reads_to_the_end_or_tells_why_not(rt: HostRuntime) -> Result<(), Fail> {
    let cases: [(&str, usize, usize, &[u32], usize, Option<ReadEnd>, usize); 19] = [
        ("a fault behind the end", 20, 7, &[5], 100, None, 20),
        ("a byte a call", 20, 1, &[], 100, None, 20),
        ("seven bytes a call", 20, 7, &[], 100, None, 20),
        ("a mebibyte a call", 9000, MIB, &[], 9999, None, 9000),
        ("a whole piece", 8192, MIB, &[], 9999, None, 8192),
        ("the greatest limit", 20, 7, &[], usize::MAX, None, 20),
        ("first call fails", 20, 7, &[1], 100, FAULT, 0),
        ("second call fails", 20, 7, &[2], 100, FAULT, 7),
        ("a call midway fails", 20, 1, &[11], 100, FAULT, 10),
        ("the call at the end fails", 20, 7, &[4], 100, FAULT, 20),
        ("no byte, limit 0", 0, 1, &[], 0, None, 0),
        ("a byte, limit 0", 1, 1, &[], 0, LONG, 1),
        ("two bytes, limit 0", 2, 7, &[], 0, LONG, 1),
        ("exactly the limit", 20, 7, &[], 20, None, 20),
        ("one past the limit", 21, 7, &[], 20, LONG, 21),
        ("far past the limit", 90, MIB, &[], 20, LONG, 21),
        ("past it by a piece", 9000, MIB, &[], 8192, LONG, 8193),
        ("a fault at the limit", 21, 1, &[21], 20, FAULT, 20),
        ("a fault past the limit", 21, 1, &[22], 20, LONG, 21),
    ];
    for (name, size, most, failing, limit, end, taken) in cases {
        assert!(rt; most > 0 && taken <= size);
        let bytes = pattern(rt.alloc(), size)?;
        let mut src = MemSource::new(bytes.clone()?, most, failing.to_vec(rt.alloc())?);
        match read_all(rt.alloc(), &mut src, limit) {
            Ok(all) => {
                assert_eq!(rt; end, None, "{name}");
                assert_eq!(rt; all.as_slice(), bytes.as_slice(), "{name}");
            }
            Err(why) => assert_eq!(rt; end, Some(why), "{name}"),
        }
        // The fault past the limit is still to come.
        let _ = src.read(&mut []);
        let rest = read_all(rt.alloc(), &mut src, usize::MAX)?;
        assert_eq!(rt; Some(rest.as_slice()), bytes.get(taken..), "{name}");
    }
    Ok(())
}

// Each row: the sink's room, the most that a call takes, the calls that fail; the text, whether all of it was written,
// and what the sink holds then.
#[test]
fn writes_all_or_a_front(rt: HostRuntime) -> Result<(), Fail> {
    let cases: [(&str, usize, usize, &[u32], &str, bool, &str); 15] = [
        ("a byte a call", 9, 1, &[], "abcdef", true, "abcdef"),
        ("three bytes a call", 9, 3, &[], "abcdef", true, "abcdef"),
        ("four bytes a call", 9, 4, &[], "abcdef", true, "abcdef"),
        ("room exactly enough", 6, 3, &[], "abcdef", true, "abcdef"),
        ("room one short", 5, 3, &[], "abcdef", false, "abcde"),
        ("no room", 0, 3, &[], "abcdef", false, ""),
        ("an empty piece", 9, 3, &[1], "", true, ""),
        ("an empty piece, no room", 0, 3, &[], "", true, ""),
        ("call 1 fails", 9, 1, &[1], "abcdef", false, ""),
        ("call 2 fails", 9, 1, &[2], "abcdef", false, "a"),
        ("call 3 fails", 9, 1, &[3], "abcdef", false, "ab"),
        ("call 4 fails", 9, 1, &[4], "abcdef", false, "abc"),
        ("call 5 fails", 9, 1, &[9, 5], "abcdef", false, "abcd"),
        ("call 6 fails", 9, 1, &[6], "abcdef", false, "abcde"),
        ("call 7 fails", 9, 1, &[7], "abcdef", true, "abcdef"),
    ];
    for (name, room, most, failing, text, all, held) in cases {
        assert!(rt; most > 0);
        let mut out = MemSink::new(rt.alloc(), room, most, failing.to_vec(rt.alloc())?)?;
        assert_eq!(rt; write_all(&mut out, text.as_bytes()).is_ok(), all, "{name}");
        assert_eq!(rt; out.bytes(), held.as_bytes(), "{name}");
    }
    Ok(())
}

// Each row: a buffer's size, what the call answers, and what is in the buffer then, which was full of dots.
#[test]
fn gives_few_bytes_and_fails_where_told(rt: HostRuntime) -> Result<(), Fail> {
    let bytes = b"abcdefg".to_vec(rt.alloc())?;
    let failing = [4, 2].to_vec(rt.alloc())?;
    let mut src = MemSource::new(bytes, 3, failing);
    let cases: [(usize, Result<usize, IoFault>, &str); 7] = [
        (2, Ok(2), "ab"),
        (5, Err(IoFault), "....."),
        (5, Ok(3), "cde.."),
        (5, Err(IoFault), "....."),
        (0, Ok(0), ""),
        (5, Ok(2), "fg..."),
        (5, Ok(0), "....."),
    ];
    for (size, answer, after) in cases {
        let mut buf = vec![in rt.alloc(); b'.'; size]?;
        assert_eq!(rt; src.read(&mut buf), answer);
        assert_eq!(rt; buf.as_slice(), after.as_bytes());
    }
    Ok(())
}

// Each row: a piece, what the call answers, and what the sink holds then.
#[test]
fn takes_few_bytes_and_fails_where_told(rt: HostRuntime) -> Result<(), Fail> {
    let failing = [2].to_vec(rt.alloc())?;
    let mut out = MemSink::new(rt.alloc(), 7, 3, failing)?;
    let cases: [(&str, Result<usize, IoFault>, &str); 7] = [
        ("ab", Ok(2), "ab"),
        ("cdefg", Err(IoFault), "ab"),
        ("cdefg", Ok(3), "abcde"),
        ("", Ok(0), "abcde"),
        ("fgh", Ok(2), "abcdefg"),
        ("", Ok(0), "abcdefg"),
        ("h", Err(IoFault), "abcdefg"),
    ];
    for (piece, answer, held) in cases {
        assert_eq!(rt; out.write(piece.as_bytes()), answer, "{piece}");
        assert_eq!(rt; out.bytes(), held.as_bytes(), "{piece}");
    }
    Ok(())
}

// A reader and a writer that fail, a writer that takes nothing, and a reader and writer whose first call alone fails.
#[derive(Clone, Copy)]
struct Closed;

#[derive(Clone, Copy)]
struct Stuck;

#[derive(Clone, Copy)]
struct Shaky {
    failed: bool,
}

impl Read for Closed {
    fn read(&mut self, _buf: &mut [u8]) -> io::Result<usize> {
        Err(io::Error::from(ErrorKind::BrokenPipe))
    }
}

impl Write for Closed {
    fn write(&mut self, _buf: &[u8]) -> io::Result<usize> {
        Err(io::Error::from(ErrorKind::BrokenPipe))
    }

    fn flush(&mut self) -> io::Result<()> {
        Ok(())
    }
}

impl Write for Stuck {
    fn write(&mut self, _buf: &[u8]) -> io::Result<usize> {
        Ok(0)
    }

    fn flush(&mut self) -> io::Result<()> {
        Ok(())
    }
}

impl Read for Shaky {
    fn read(&mut self, _buf: &mut [u8]) -> io::Result<usize> {
        if self.failed {
            return Ok(0);
        }
        self.failed = true;
        Err(io::Error::from(ErrorKind::Interrupted))
    }
}

impl Write for Shaky {
    fn write(&mut self, buf: &[u8]) -> io::Result<usize> {
        if self.failed {
            return Ok(buf.len());
        }
        self.failed = true;
        Err(io::Error::from(ErrorKind::Interrupted))
    }

    fn flush(&mut self) -> io::Result<()> {
        Ok(())
    }
}

#[test]
fn reads_from_a_reader(rt: HostRuntime) -> Result<(), Fail> {
    let bytes = pattern(rt.alloc(), 9000)?;
    let mut src = StdSource::new(bytes.as_slice());
    let all = read_all(rt.alloc(), &mut src, 9000)?;
    assert_eq!(rt; all.as_slice(), bytes.as_slice());
    let failed = read_all(rt.alloc(), &mut StdSource::new(Closed), 9000);
    assert_eq!(rt; failed.err(), Some(ReadEnd::ReadFault));
    let early = read_all(
        rt.alloc(),
        &mut StdSource::new(Shaky { failed: false }),
        9000,
    );
    assert_eq!(rt; early.err(), Some(ReadEnd::ReadFault));
    let mut shaky = StdSource::new(Shaky { failed: false });
    assert_eq!(rt; shaky.read(&mut [0]), Err(IoFault));
    assert_eq!(rt; shaky.read(&mut [0]), Ok(0));
    Ok(())
}

#[test]
fn writes_to_a_writer(rt: HostRuntime) -> Result<(), Fail> {
    let mut held = Vec::new(rt.alloc());
    let mut out = StdSink::new(&mut held);
    write_all(&mut out, b"ab")?;
    write_all(&mut out, b"cd")?;
    drop(out);
    assert_eq!(rt; held.as_slice(), b"abcd".as_slice());
    assert_eq!(rt; write_all(&mut StdSink::new(Closed), b"ab"), Err(IoFault));
    assert_eq!(rt; write_all(&mut StdSink::new(Stuck), b"ab"), Err(IoFault));
    assert_eq!(rt; StdSink::new(Stuck).write(b""), Ok(0));
    let long = write_all(&mut StdSink::new(Shaky { failed: false }), &[b'.'; 9000]);
    assert_eq!(rt; long, Err(IoFault));
    let mut shaky = StdSink::new(Shaky { failed: false });
    assert_eq!(rt; shaky.write(b"ab"), Err(IoFault));
    assert_eq!(rt; shaky.write(b"ab"), Ok(2));
    Ok(())
}
