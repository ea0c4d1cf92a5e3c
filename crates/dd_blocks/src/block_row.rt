/// A block of an array.
#[derive(Clone, Copy, Debug, PartialEq, Eq)]
pub struct BlockRow {
    /// The number of its array.
    pub array: u32,
    /// The number of its first home, a space.
    pub home: u32,
    /// In elements.
    pub size: u32,
}
