//! Scripts, read and written by pieces of several sizes.
use crate::memory_runs::{Ends, PLAIN, TWICE, run_over};
use std::alloc::{AllocError, Global};
use std::process::Abort;
use std::test::Fail;

/// A name, the script, the exit status, and the text on the output.
type Script = (&'static str, &'static [u8], u8, &'static str);

const SCRIPTS: [Script; 14] = [
    ("the empty text", b"", 0, ""),
    ("an array added to itself", TWICE, 0, "2 2\n2 2\n"),
    (
        "a copy",
        b"array A 1 2 1 2 const 5\narray B 1 2 1 2 zeros\nregion\ntask copy Out(B) In(A)\nend\nprint B",
        0,
        "5 5\n",
    ),
    (
        "two rows of three",
        b"array A 2 3 2 3 zeros\nregion\ntask fill -7 Out(A)\nend\nprint A",
        0,
        "-7 -7 -7\n-7 -7 -7\n",
    ),
    ("an open region", b"array A 1 1 1 1 zeros\nregion", 3, ""),
    (
        "nothing before a fault",
        b"array A 1 1 1 1 zeros\nprint A\nprint B",
        3,
        "",
    ),
    (
        "a number below 0 in a row",
        b"array A 1 3 1 3 iota\nregion\ntask neg InOut(A[1,2])\nend\nprint A",
        0,
        "1 -2 3\n",
    ),
    (
        "one column",
        b"array A 3 1 3 1 iota\nprint A",
        0,
        "1\n2\n3\n",
    ),
    (
        "column by column",
        b"array A 2 3 2 3 iota\nprint A",
        0,
        "1 3 5\n2 4 6\n",
    ),
    (
        "the least and the greatest",
        b"array A 1 2 1 2 const -9223372036854775808\nregion\ntask fill 9223372036854775807 Out(A[1,2])\nend\nprint A",
        0,
        "-9223372036854775808 9223372036854775807\n",
    ),
    (
        "a sum of zero",
        b"array out 1 1 1 1 zeros\nsum out",
        0,
        "sum out 0\n",
    ),
    (
        "a sum of three",
        b"array out 1 3 1 3 const 1\nregion\ntask fill -5 Out(out[1,2])\ntask fill 3 Out(out[1,3])\nend\nsum out",
        0,
        "sum out -1\n",
    ),
    (
        "a sum wraps",
        b"array out 1 2 1 2 const 1\nregion\ntask fill 9223372036854775807 Out(out[1,1])\nend\nsum out",
        0,
        "sum out -9223372036854775808\n",
    ),
    (
        "moved elements",
        b"space m 4096\nspace n 4096\nproc p m\nproc q n\narray A 1 7 1 7 zeros\nmoved\nregion\ntask fill 1 Out(A)\ntask fill 2 Out(A)\nend\nmoved",
        0,
        "moved 0\nmoved 7\n",
    ),
];

#[test]
fn scripts_by_pieces(rt: HostRuntime) -> Result<(), Fail> {
    for script in &SCRIPTS {
        for given in [1, 3, 7, 4096] {
            check_script(&rt, rt.alloc(), script, given)?;
        }
    }
    Ok(())
}

fn check_script(
    rt: &impl Abort,
    alloc: Global,
    script: &Script,
    given: usize,
) -> Result<(), AllocError> {
    let (name, text, exit, out) = *script;
    let ends = Ends {
        given,
        taken: given,
        ..PLAIN
    };
    let run = run_over(alloc, &["run"], text, &ends)?;
    assert_eq!(rt; run.status.exit_code(), exit, "{name}");
    assert_eq!(rt; run.out.as_slice(), out.as_bytes(), "{name}");
    Ok(())
}
