use crate::what::What;

/// A statement, other than those on the machine.
#[derive(Debug, Drop)]
pub struct StatementRow {
    /// The line that it stands on. Of a region it is the line of its end.
    pub line: u32,
    pub what: What,
}
