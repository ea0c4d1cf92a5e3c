ghost use Rattle.std.specs.Prelude.{◌≡◌, None, Some, OnOk};
ghost use Rattle.dd_check.specs.Lookup.{array_by, NamesNothing, Renames};

use indexmap::IndexMap;
use std::alloc::{AllocError, Global};

/// The names that stand for arrays, each with the number of its array.
#[derive(Drop)]
pub(crate) struct Names {
    numbers: IndexMap<Vec<u8>, u32>,
}

impl Names {
    pub(crate) fn new(alloc: Global) -> Names
        ensures { NamesNothing result }
    {
        Names {
            numbers: IndexMap::new(alloc),
        }
    }

    /// The array of a name.
    pub(crate) fn array(&self, name: &[u8]) -> Option<u32>
        ensures { result ≡ array_by self.now name.now }
    {
        self.numbers.get(name).copied()
    }

    /// The name stands for an array from here on.
    pub(crate) fn put(&mut self, alloc: Global, name: &[u8], array: u32) -> Result<(), AllocError>
        ensures { OnOk result (Renames self.old self.new name.now (Some array)) }
    {
        let key = Vec::from_slice(alloc, name)?;
        self.numbers.insert(key, array)?;
        Ok(())
    }

    /// The name stands for nothing from here on.
    pub(crate) fn remove(&mut self, name: &[u8])
        ensures { Renames self.old self.new name.now None }
    {
        self.numbers.swap_remove(name);
    }
}
