/// The elements that a column of a view keeps, by their positions in the array, from 0: `count` of them, from
/// `first` on, each `step` from the one before.
#[derive(Clone, Copy, Debug, PartialEq, Eq)]
pub struct Column {
    /// 0 where the column keeps nothing.
    pub first: u64,
    /// Above or below 0, and never 0.
    pub step: i64,
    pub count: u32,
}
