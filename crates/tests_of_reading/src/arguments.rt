//! The arguments of a task.
use crate::said::{Case, must_say, must_say_all};

/// The arguments of a task, each in one shape, and the accesses that they are.
const ARGUMENTS: [Case; 34] = [
    (b"a name", b"task k A", b"task k (Read A All All All)"),
    (
        b"rows and columns",
        b"task k A[:,:]",
        b"task k (Read A All All All)",
    ),
    (
        b"one row",
        b"task k A[3,:]",
        b"task k (Read A One(3) All All)",
    ),
    (
        b"a run of columns",
        b"task k A[:,-1:4]",
        b"task k (Read A All Run { first: -1, last: 4 } All)",
    ),
    (
        b"steps",
        b"task k A[9:-2:1,1:0:1]",
        b"task k (Read A Steps { first: 9, step: -2, last: 1 } Steps { first: 1, step: 0, last: 1 } All)",
    ),
    (b"read", b"task k In(A)", b"task k (Read A All All All)"),
    (
        b"written",
        b"task k Out(A)",
        b"task k (Write A All All All)",
    ),
    (b"both", b"task k InOut(A)", b"task k (Both A All All All)"),
    (
        b"written rows",
        b"task k Out(A[1:2,:])",
        b"task k (Write A Run { first: 1, last: 2 } All All)",
    ),
    (
        b"the whole as a part",
        b"task k all(A)",
        b"task k (Read A All All All)",
    ),
    (
        b"lower",
        b"task k lower(A)",
        b"task k (Read A All All Lower)",
    ),
    (
        b"upper",
        b"task k upper(A)",
        b"task k (Read A All All Upper)",
    ),
    (
        b"below",
        b"task k unitlower(A)",
        b"task k (Read A All All UnitLower)",
    ),
    (
        b"above",
        b"task k unitupper(A)",
        b"task k (Read A All All UnitUpper)",
    ),
    (
        b"diagonal",
        b"task k diag(A[1,1])",
        b"task k (Read A One(1) One(1) Diag)",
    ),
    (
        b"a part that is written",
        b"task k Out(lower(A))",
        b"task k (Write A All All Lower)",
    ),
    (
        b"a part that is both",
        b"task k InOut(diag(A[:,:]))",
        b"task k (Both A All All Diag)",
    ),
    (
        b"a part that is read",
        b"task k In(all(A))",
        b"task k (Read A All All All)",
    ),
    (
        b"one dependency",
        b"task k Deps(A, In(lower))",
        b"task k (Read A All All Lower)",
    ),
    (
        b"several dependencies",
        b"task k Deps(A[1:2,1:2], InOut(diag), In(upper), Out(unitlower))",
        b"task k (Both A Run { first: 1, last: 2 } Run { first: 1, last: 2 } Diag) (Read A Run { first: 1, last: 2 } Run { first: 1, last: 2 } Upper) (Write A Run { first: 1, last: 2 } Run { first: 1, last: 2 } UnitLower)",
    ),
    (
        b"one after another",
        b"task k A In(B)C[1,1]Deps(D,In(all))Out(E)",
        b"task k (Read A All All All) (Read B All All All) (Read C One(1) One(1) All) (Read D All All All) (Write E All All All)",
    ),
    (
        b"a name that is an access word",
        b"task k In(Out)",
        b"task k (Read Out All All All)",
    ),
    (
        b"a name that is a part",
        b"task k lower",
        b"task k (Read lower All All All)",
    ),
    (b"an unknown word", b"task k Inn(A)", b"UnknownPart"),
    (b"case counts", b"task k in(A)", b"UnknownPart"),
    (
        b"an access word inside",
        b"task k In(Out(A))",
        b"UnknownPart",
    ),
    (b"a part outside", b"task k lower(In(A))", b"UnknownPart"),
    (b"no parts", b"task k Deps(A)", b"UnknownPart"),
    (
        b"dependencies of a part",
        b"task k Deps(lower(A))",
        b"UnknownPart",
    ),
    (
        b"another word than Deps",
        b"task k In(A, In(lower))",
        b"UnknownPart",
    ),
    (
        b"an access word for a part",
        b"task k Deps(A, In(In))",
        b"UnknownPart",
    ),
    (
        b"a part for an access word",
        b"task k Deps(A, In(all), lower(all))",
        b"UnknownPart",
    ),
    (
        b"an unknown word at the end",
        b"task k In(A) Out(B) inout(C)",
        b"UnknownPart",
    ),
    (b"a name for a number", b"task k A[i,j]", b"BadForm"),
];

/// Arguments that are no arguments.
const NO_ARGUMENTS: [&[u8]; 25] = [
    b"task k A[",
    b"task k A[]",
    b"task k A[1]",
    b"task k A[1,]",
    b"task k A[,1]",
    b"task k A[1,1",
    b"task k A[1,1,1]",
    b"task k A[1:,1]",
    b"task k A[:1,1]",
    b"task k A[1:2:,1]",
    b"task k A[1:2:3:4,1]",
    b"task k In()",
    b"task k In(A",
    b"task k In(A))",
    b"task k In(lower(A)",
    b"task k In(lower(A)))",
    b"task k In(lower())",
    b"task k In(a(b(A)))",
    b"task k Deps(A,)",
    b"task k Deps(A,In)",
    b"task k Deps(A,In())",
    b"task k Deps(A,In(lower),)",
    b"task k Deps(,In(lower))",
    b"task k Deps(A In(lower))",
    b"task k Deps(lower(A),In(all))",
];

#[test]
fn arguments(rt: HostRuntime) {
    must_say_all(&rt, rt.alloc(), &ARGUMENTS);
}

#[test]
fn no_arguments(rt: HostRuntime) {
    for line in NO_ARGUMENTS {
        must_say(&rt, rt.alloc(), &(line, line, b"BadForm"));
    }
}
