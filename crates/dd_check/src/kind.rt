/// Why a script is refused. The kinds stand in the order in which they are asked of a line: a kind holds only where
/// none before it does.
#[derive(Clone, Copy, Debug, PartialEq, Eq)]
pub enum Kind {
    /// A byte before the comment is neither a blank nor one that shows.
    NotText,
    /// The text has more bytes than a script may have.
    TooLong,
    /// The bytes are no tokens, or the tokens have not the form of their statement.
    BadForm,
    /// The first word is no statement's.
    UnknownStatement,
    /// A number is outside Int64, or the limit of a space is outside 1 to 2^40.
    BadNumber,
    /// A word stands where an access word, a part or `Deps` is wanted, and is none that is allowed there.
    UnknownPart,
    /// A space or an array that is named is not there.
    UnknownName,
    /// The name that a statement gives is taken.
    NameTaken,
    /// A statement on the machine stands below one of another kind.
    LateMachine,
    /// Another statement than one on the machine stands below a `space`, and no `proc` stands above it.
    NoProc,
    /// An edge of an array or of its blocks is outside 1 to 4,194,304.
    BadShape,
    /// The word is no kernel's.
    UnknownKernel,
    /// There are more or fewer accesses than the kernel takes, or a scalar too many or too few.
    ArgCount,
    /// An access is used in a way that the kernel does not take there.
    BadAccess,
    /// A range has the step 0, or a number outside its array.
    BadRange,
    /// A part is asked of a view that is not square.
    NotSquare,
    /// The shapes of the accesses do not fit each other.
    ShapeMismatch,
    /// A task or an end outside every region, or another statement inside one.
    WrongPlace,
    /// A limit is passed.
    TooMany,
    /// A block and room to move it do not fit into its home.
    BlockTooLarge,
    /// A task takes more than its space has.
    TaskTooLarge,
    /// A region is open at the end of the text.
    UnendedRegion,
}
