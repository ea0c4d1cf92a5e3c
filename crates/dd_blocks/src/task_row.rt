use crate::access_row::AccessRow;
use dd_kernels::Kernel;
use dd_views::Items;

/// A task of a region.
#[derive(Debug, Drop)]
pub struct TaskRow {
    /// The line that it stands on.
    pub line: u32,
    pub region: u32,
    pub kernel: Kernel,
    /// 0 where the kernel has none.
    pub scalar: i64,
    pub accesses: Items<AccessRow>,
    /// The number of the processor that runs it.
    pub proc: u32,
    /// The numbers of the tasks that must be done before it, rising.
    pub deps: Items<u32>,
    /// The numbers of the blocks that hold an element of an access, rising.
    pub blocks: Items<u32>,
    /// In bytes: what it takes of the space that it runs in.
    pub charge: u64,
}
