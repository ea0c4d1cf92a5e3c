ghost use Rattle.std.specs.Prelude.{◌≡◌};
ghost use Rattle.dd_tokens.specs.declared.fault.LineFault.TheVariants.{Memory};

use std::alloc::{AllocError, AllocFailed};

/// Why a line can't be read. The kinds stand in the order in which they are asked.
#[derive(Clone, Copy, Debug, PartialEq, Eq)]
pub enum LineFault {
    /// A byte before the comment is neither a blank nor one that shows.
    NotText,
    /// The bytes are no tokens, or the tokens have not the form of their statement.
    BadForm,
    /// The first word is no statement's.
    UnknownStatement,
    /// A number is out of its range.
    BadNumber,
    /// A word stands where an access word, a part or `Deps` is wanted, and is none that is allowed there.
    UnknownPart,
    /// Want of memory, which may come at any time.
    Memory,
}

impl From<AllocError> for LineFault {
    ghost from_gives = { λ _ e. e ≡ Memory };

    fn from(_e: AllocError) -> LineFault {
        LineFault::Memory
    }
}

impl<T: Drop> From<AllocFailed<T>> for LineFault {
    ghost from_gives = { λ _ e. e ≡ Memory };

    fn from(_e: AllocFailed<T>) -> LineFault {
        LineFault::Memory
    }
}
