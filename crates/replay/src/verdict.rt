//! What a journal comes to.
use std::fmt;

/// Whether the entries of a journal are a whole legal run of its script.
#[derive(Clone, Copy, Debug, PartialEq, Eq)]
pub enum Verdict {
    /// They are, and so many elements were moved.
    Yes { entries: usize, moved: u64 },
    /// The entry of this line, from 1, is the first that is no event, or one that isn't legal.
    No { line: usize },
    /// Each is legal, and the run ends before the script does.
    Short { entries: usize },
}

impl fmt::Display for Verdict {
    fn fmt<W: fmt::Write>(&self, f: &mut fmt::Formatter<W>) -> fmt::Result {
        match self {
            Verdict::Yes { entries, moved } => write!(f, "yes {entries} moved {moved}"),
            Verdict::No { line } => write!(f, "no {line}"),
            Verdict::Short { entries } => write!(f, "short {entries}"),
        }
    }
}
