/// The rows or the columns of a view, as a script writes them. Numbers run from 1.
#[derive(Clone, Copy, Debug, PartialEq, Eq)]
pub enum Range {
    /// `:`, all there are.
    All,
    /// `3`, one number.
    One(i64),
    /// `2:5`, in steps of 1. Julia's rule: it is empty where `last` is below `first`.
    Run { first: i64, last: i64 },
    /// `1:3:9`, in steps. Julia's rule: it never passes `last`.
    Steps { first: i64, step: i64, last: i64 },
}
