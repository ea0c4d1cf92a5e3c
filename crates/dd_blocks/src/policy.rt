/// Which block leaves a full space first.
#[derive(Clone, Copy, Debug, PartialEq, Eq)]
pub enum Policy {
    /// The one that was not used for the longest time.
    Lru,
    /// The one that was used last.
    Mru,
}
