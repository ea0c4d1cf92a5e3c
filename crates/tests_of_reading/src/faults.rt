//! Lines, each with its fault.
use crate::said::{Case, must_say_all};

/// Lines that have not the form of their statement, whatever else is wrong with them.
const BAD_FORMS: [Case; 25] = [
    (b"no argument", b"print", b"BadForm"),
    (b"a number for a name", b"print 1", b"BadForm"),
    (b"one token more", b"print A B", b"BadForm"),
    (b"a mark behind", b"end ,", b"BadForm"),
    (b"a number first", b"1 print A", b"BadForm"),
    (b"a mark first", b"( print A", b"BadForm"),
    (b"bytes that are no tokens", b"print A+", b"BadForm"),
    (b"a minus alone", b"task fill - A", b"BadForm"),
    (b"two signs", b"task fill --1 A", b"BadForm"),
    (b"a letter behind a number", b"task fill 1x A", b"BadForm"),
    (b"a space of no number", b"space s t", b"BadForm"),
    (
        b"an unknown word before bad form",
        b"task neg foo(A) In(B",
        b"BadForm",
    ),
    (
        b"a large number before bad form",
        b"task fill 9223372036854775808 In(",
        b"BadForm",
    ),
    (b"unknown contents", b"array A 1 1 1 1 ones", b"BadForm"),
    (
        b"contents without their number",
        b"array A 1 1 1 1 const",
        b"BadForm",
    ),
    (
        b"contents with a number",
        b"array A 1 1 1 1 iota 1",
        b"BadForm",
    ),
    (b"three numbers", b"array A 1 1 1 zeros", b"BadForm"),
    (b"an unknown policy", b"policy fifo", b"BadForm"),
    (b"an unknown rule", b"place random", b"BadForm"),
    (b"no kernel", b"task", b"BadForm"),
    (b"a number for a kernel", b"task 1 A", b"BadForm"),
    (b"two scalars", b"task fill 1 2 A", b"BadForm"),
    (b"a scalar behind", b"task fill A 1", b"BadForm"),
    (b"a region of a name", b"region A", b"BadForm"),
    (b"moved of a name", b"moved A", b"BadForm"),
];

/// Lines with other faults, each with the first that holds, and beside some of them one that just says something.
const OTHER_FAULTS: [Case; 23] = [
    (b"a byte that is no text", b"print \x7f", b"NotText"),
    (b"no text before no tokens", b"+ \x01", b"NotText"),
    (b"no text in a comment", b"print A # \x7f", b"print A"),
    (b"no statement", b"foo A", b"UnknownStatement"),
    (b"no statement, and no form", b"foo [", b"UnknownStatement"),
    (
        b"no statement, and a large number",
        b"foo 9223372036854775808",
        b"UnknownStatement",
    ),
    (b"a keyword in capitals", b"Print A", b"UnknownStatement"),
    (b"a keyword and more", b"printed A", b"UnknownStatement"),
    (b"an empty space", b"space s 0", b"BadNumber"),
    (b"a space below nothing", b"space s -1", b"BadNumber"),
    (b"a space too large", b"space s 1099511627777", b"BadNumber"),
    (
        b"a scalar too large",
        b"task fill 9223372036854775808 Out(A)",
        b"BadNumber",
    ),
    (
        b"a scalar too small",
        b"task fill -9223372036854775809 Out(A)",
        b"BadNumber",
    ),
    (
        b"the largest scalar",
        b"task fill 9223372036854775807",
        b"task fill 9223372036854775807",
    ),
    (
        b"the smallest scalar",
        b"task fill -9223372036854775808",
        b"task fill -9223372036854775808",
    ),
    (
        b"a row too large",
        b"task neg InOut(A[9223372036854775808,1])",
        b"BadNumber",
    ),
    (
        b"a column too large",
        b"task neg InOut(A[1,1:99999999999999999999])",
        b"BadNumber",
    ),
    (
        b"a step too large",
        b"task neg A[1:9223372036854775808:2,:]",
        b"BadNumber",
    ),
    (
        b"the last step too large",
        b"task neg A[:,1:1:9223372036854775808]",
        b"BadNumber",
    ),
    (
        b"a number before an unknown word",
        b"task neg foo(A) In(B[9223372036854775808,1])",
        b"BadNumber",
    ),
    (
        b"rows too large",
        b"array A 9223372036854775808 1 1 1 zeros",
        b"BadNumber",
    ),
    (
        b"a seed too large",
        b"array A 1 1 1 1 lcg 9223372036854775808",
        b"BadNumber",
    ),
    (
        b"contents too large",
        b"array A 1 1 1 1 const 9223372036854775808",
        b"BadNumber",
    ),
];

#[test]
fn bad_forms(rt: HostRuntime) {
    must_say_all(&rt, rt.alloc(), &BAD_FORMS);
}

#[test]
fn other_faults(rt: HostRuntime) {
    must_say_all(&rt, rt.alloc(), &OTHER_FAULTS);
}
