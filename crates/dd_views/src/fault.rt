/// Why a view is refused.
#[derive(Clone, Copy, Debug, PartialEq, Eq)]
pub enum ViewFault {
    /// The step of a range is 0, or the range lists a number that the array hasn't.
    BadRange,
    /// A part is asked of a view that hasn't as many rows as columns.
    NotSquare,
}
