//! One copy of a block.
ghost use Rattle.std.specs.Prelude.{◌≡◌, replicate, IfOk};
ghost use Rattle.dd_machine.specs.declared.copy_state.CopyState.TheVariants.{Here};

use dd_machine::CopyState;
use dd_spans::RunMap;
use std::alloc::{AllocError, Global};

/// A copy of a block: where its values are, and the version of each place.
#[derive(Debug, Drop)]
pub struct BlockCopy {
    pub state: CopyState,
    pub versions: RunMap,
}

impl BlockCopy {
    /// A copy in memory of a block of so many places, with one version all over.
    ///
    /// # Errors
    /// Want of memory.
    pub fn new(alloc: Global, size: u64, version: u32) -> Result<BlockCopy, AllocError>
        ensures state { IfOk result (λ copy. copy.state ≡ Here) }
        ensures versions { IfOk result (λ copy. copy.versions.list ≡ replicate size version) }
    {
        Ok(BlockCopy {
            state: CopyState::Here,
            versions: RunMap::new(alloc, size, version)?,
        })
    }
}
