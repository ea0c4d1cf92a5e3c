/// Which block of a space goes first, of those that aren't pinned. The names are those of MemPool.jl.
#[derive(Clone, Copy, Debug, PartialEq, Eq)]
pub enum Policy {
    /// The one that was not used for the longest time.
    Lru,
    /// The one that was used last.
    Mru,
}
