use crate::name::Name;

/// A processor.
#[derive(Debug, Drop)]
pub struct ProcRow {
    pub name: Name,
    /// The number of the space that it works in.
    pub space: u32,
}
