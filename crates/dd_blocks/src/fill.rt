/// What an array holds at first, by the position of an element, from 0, column by column.
#[derive(Clone, Copy, Debug, PartialEq, Eq)]
pub enum Fill {
    Zeros,
    /// The same number at each position.
    Const(i64),
    /// One more than the position.
    Iota,
    /// A number of 31 bits at each position, by a linear congruence from a seed and the position.
    Lcg(i64),
}
