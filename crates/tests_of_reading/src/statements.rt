//! Lines, each with the statement that it is read into.
use crate::said::{Case, must_say_all};

/// Every statement.
const STATEMENTS: [Case; 38] = [
    (b"no bytes", b"", b"nothing"),
    (b"blanks", b" \t\r", b"nothing"),
    (b"a comment", b"# print A", b"nothing"),
    (b"a space", b"space s1 64", b"space s1 64"),
    (b"the least space", b"space s 1", b"space s 1"),
    (
        b"the largest space",
        b"space s 1099511627776",
        b"space s 1099511627776",
    ),
    (b"a processor", b"proc p s1", b"proc p s1"),
    (b"least recently used", b"policy lru", b"policy Lru"),
    (b"most recently used", b"policy mru", b"policy Mru"),
    (b"in turn", b"place rr", b"place Rr"),
    (b"at home", b"place home", b"place Home"),
    (b"zeros", b"array A 1 2 3 4 zeros", b"array A 1 2 3 4 Zeros"),
    (
        b"a constant",
        b"array A 1 2 3 4 const -5",
        b"array A 1 2 3 4 Const(-5)",
    ),
    (b"counted", b"array A 1 2 3 4 iota", b"array A 1 2 3 4 Iota"),
    (
        b"a congruence",
        b"array A 1 2 3 4 lcg 9",
        b"array A 1 2 3 4 Lcg(9)",
    ),
    (
        b"numbers of any range of 64 bits",
        b"array A 0 -1 9223372036854775807 -9223372036854775808 zeros",
        b"array A 0 -1 9223372036854775807 -9223372036854775808 Zeros",
    ),
    (
        b"leading zeros",
        b"array A 0000000000000000000000000000000000000000007 -01 +1 1 zeros",
        b"BadForm",
    ),
    (
        b"forty zeros",
        b"array A 00000000000000000000000000000000000000007 -01 00 1 zeros",
        b"array A 7 -1 0 1 Zeros",
    ),
    (b"a second name", b"same B A", b"same B A"),
    (b"the end of a name", b"drop A", b"drop A"),
    (b"a new home", b"move A s2", b"move A s2"),
    (b"a region", b"region", b"region"),
    (b"its end", b"end", b"end"),
    (b"values", b"print A", b"print A"),
    (b"a sum", b"sum A", b"sum A"),
    (b"what moved", b"moved", b"moved"),
    (b"a name that is a keyword", b"print print", b"print print"),
    (b"a comment behind", b"print A# B", b"print A"),
    (b"blanks between", b"\tprint \r A ", b"print A"),
    (b"a task of nothing", b"task add", b"task add"),
    (b"a scalar alone", b"task fill -3", b"task fill -3"),
    (
        b"no blanks",
        b"task copy Out(B)In(A)",
        b"task copy (Write B All All All) (Read A All All All)",
    ),
    (
        b"two accesses",
        b"task copy Out(B) A",
        b"task copy (Write B All All All) (Read A All All All)",
    ),
    (
        b"an unknown kernel",
        b"task nothing In(A)",
        b"task nothing (Read A All All All)",
    ),
    (
        b"a name of 64 bytes",
        b"print ABCDEFGHIJKLMNOPQRSTUVWXYZabcdefghijklmnopqrstuvwxyz0123456789__",
        b"print ABCDEFGHIJKLMNOPQRSTUVWXYZabcdefghijklmnopqrstuvwxyz0123456789__",
    ),
    (
        b"a name of 65 bytes",
        b"print ABCDEFGHIJKLMNOPQRSTUVWXYZabcdefghijklmnopqrstuvwxyz0123456789__z",
        b"BadForm",
    ),
    (
        b"a scalar and an access",
        b"task addk 9 InOut(A)",
        b"task addk 9 (Both A All All All)",
    ),
    (
        b"a kernel with the name of a word",
        b"task In In(In)",
        b"task In (Read In All All All)",
    ),
];

/// One line with a comment behind each of its tokens in turn.
const COMMENTS: [Case; 8] = [
    (b"before all", b"# task copy Out(B) A", b"nothing"),
    (
        b"behind the first token",
        b"task # copy Out(B) A",
        b"BadForm",
    ),
    (b"behind the second", b"task copy # Out(B) A", b"task copy"),
    (
        b"behind the third",
        b"task copy Out# (B) A",
        b"task copy (Read Out All All All)",
    ),
    (b"behind the fourth", b"task copy Out(#B) A", b"BadForm"),
    (b"behind the fifth", b"task copy Out(B#) A", b"BadForm"),
    (
        b"behind the sixth",
        b"task copy Out(B)# A",
        b"task copy (Write B All All All)",
    ),
    (
        b"behind the seventh",
        b"task copy Out(B) A#",
        b"task copy (Write B All All All) (Read A All All All)",
    ),
];

#[test]
fn statements(rt: HostRuntime) {
    must_say_all(&rt, rt.alloc(), &STATEMENTS);
}

#[test]
fn comments(rt: HostRuntime) {
    must_say_all(&rt, rt.alloc(), &COMMENTS);
}
