//! Runs whose words, source or sink fail.
use crate::memory_runs::{Ends, PLAIN, TWICE, run_over};
use dd_io::{MemSink, MemSource, Sink};
use dd_session::{CommandWords, Status, run_words};
use dd_store::NeverFails;
use std::alloc::{AllocError, Global};
use std::process::Abort;
use std::test::Fail;

const USAGE: &str = "usage: ddeps [--workers N] [--journal] run|plain|gen N|demo N\n";

/// The words, the ends, the exit status, and the texts on the output and the error output.
type Refusal = (
    &'static [&'static str],
    Ends,
    u8,
    &'static str,
    &'static str,
);

const REFUSALS: [Refusal; 8] = [
    (&["walk"], PLAIN, 2, "", USAGE),
    (&[], PLAIN, 2, "", USAGE),
    (&["run", "run"], PLAIN, 2, "", USAGE),
    (&["run"], PLAIN, 0, "2 2\n2 2\n", ""),
    (
        &["run"],
        Ends {
            given: 1,
            reads_failing: &[2],
            ..PLAIN
        },
        4,
        "",
        "ddeps: read fault\n",
    ),
    // The call that would tell the end.
    (
        &["run"],
        Ends {
            reads_failing: &[2],
            ..PLAIN
        },
        4,
        "",
        "ddeps: read fault\n",
    ),
    (
        &["run"],
        Ends {
            taken: 3,
            writes_failing: &[2],
            ..PLAIN
        },
        5,
        "2 2",
        "ddeps: write fault\n",
    ),
    (
        &["run"],
        Ends { room: 5, ..PLAIN },
        5,
        "2 2\n2",
        "ddeps: write fault\n",
    ),
];

#[test]
fn refusals(rt: HostRuntime) -> Result<(), Fail> {
    for refusal in &REFUSALS {
        check_refusal(&rt, rt.alloc(), refusal)?;
    }
    Ok(())
}

fn check_refusal(rt: &impl Abort, alloc: Global, refusal: &Refusal) -> Result<(), AllocError> {
    let (words, ends, exit, out, err) = *refusal;
    let run = run_over(alloc, words, TWICE, &ends)?;
    assert_eq!(rt; run.status.exit_code(), exit);
    assert_eq!(rt; run.out.as_slice(), out.as_bytes());
    assert_eq!(rt; run.err.as_slice(), err.as_bytes());
    Ok(())
}

/// A script, how many bytes the output takes a call, and what it has when the second call failed.
type Cut = (&'static [u8], usize, &'static str);

const CUTS: [Cut; 2] = [
    (b"array A 2 2 2 2 iota\nprint A", 4, "1 3\n"),
    (b"moved\nmoved", 64, "moved "),
];

#[test]
fn the_second_call_of_the_output_fails(rt: HostRuntime) -> Result<(), Fail> {
    for (text, taken, written) in CUTS {
        let ends = Ends {
            taken,
            writes_failing: &[2],
            ..PLAIN
        };
        let run = run_over(rt.alloc(), &["run"], text, &ends)?;
        assert_eq!(rt; run.status, Status::WriteFault, "{written}");
        assert_eq!(rt; run.out.as_slice(), written.as_bytes());
    }
    Ok(())
}

// A run that is done calls the error output not even with nothing: its first call, which fails, is still to come.
#[test]
fn nothing_is_reported_where_all_is_done(rt: HostRuntime) -> Result<(), Fail> {
    let mut words = CommandWords::new(rt.alloc());
    words.push("run")?;
    let text = Vec::from_slice(rt.alloc(), TWICE)?;
    let mut src = MemSource::new(text, 4096, Vec::new(rt.alloc()));
    let mut out = MemSink::new(rt.alloc(), 64, 64, Vec::new(rt.alloc()))?;
    let mut err = MemSink::new(rt.alloc(), 64, 64, Vec::from_slice(rt.alloc(), &[1])?)?;
    let store = NeverFails::new(rt.alloc());
    let outcome = run_words(rt.alloc(), &words, &mut src, &mut out, &mut err, store);
    assert_eq!(rt; outcome.status, Status::Done);
    assert!(rt; err.write(b"x").is_err());
    Ok(())
}

const CALLS: [&[u32]; 8] = [&[1], &[2], &[3], &[4], &[5], &[6], &[7], &[8]];

// The source and the sink are called eight times.
const BEHIND: &[u32] = &[9];

// Each call of the source or the sink fails in turn: the status tells which, and a front of the text was written. No
// call is made behind the last.
#[test]
fn each_call_fails_in_turn(rt: HostRuntime) -> Result<(), Fail> {
    for (written, failing) in CALLS.iter().enumerate() {
        check_failing_read(&rt, rt.alloc(), failing, Status::ReadFault)?;
        check_failing_write(&rt, rt.alloc(), failing, Status::WriteFault, written)?;
    }
    check_failing_read(&rt, rt.alloc(), BEHIND, Status::Done)?;
    check_failing_write(&rt, rt.alloc(), BEHIND, Status::Done, CALLS.len())
}

fn check_failing_read(
    rt: &impl Abort,
    alloc: Global,
    failing: &'static [u32],
    status: Status,
) -> Result<(), Fail> {
    let ends = Ends {
        given: 10,
        reads_failing: failing,
        ..PLAIN
    };
    let run = run_over(alloc, &["run"], TWICE, &ends)?;
    assert!(rt; run.status == status);
    assert_eq!(rt; run.out.is_empty(), status == Status::ReadFault);
    Ok(())
}

fn check_failing_write(
    rt: &impl Abort,
    alloc: Global,
    failing: &'static [u32],
    status: Status,
    written: usize,
) -> Result<(), Fail> {
    let ends = Ends {
        taken: 1,
        writes_failing: failing,
        ..PLAIN
    };
    let run = run_over(alloc, &["run"], TWICE, &ends)?;
    assert!(rt; run.status == status);
    assert!(rt; b"2 2\n2 2\n".starts_with(run.out.as_slice()));
    assert_eq!(rt; run.out.len(), written);
    Ok(())
}
