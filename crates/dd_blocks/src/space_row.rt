use crate::name::Name;

/// A space: memory with a limit.
#[derive(Debug, Drop)]
pub struct SpaceRow {
    pub name: Name,
    /// In bytes.
    pub limit: u64,
}
