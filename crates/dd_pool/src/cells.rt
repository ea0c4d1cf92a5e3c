ghost use Rattle.std.specs.Prelude.{◌≡◌, ℕ, Some, length};
ghost use Rattle.std.specs.Coded.{Π_prop, →_prop};
ghost use Rattle.std.proofs.Props.{props};
ghost use Rattle.dd_pool.specs.Keys.{LeadBack};

use slab::Slab;
use std::alloc::{AllocError, Global};

/// A thing that knows in which cell it is. So no two cells have one key.
#[derive(Drop)]
pub(crate) struct Entry<T> {
    pub(crate) at: usize,
    pub(crate) item: T,
}

/// A table of cells, each of which holds one thing or nothing.
///
/// The things stand in a slab, and the table has their keys: most cells are empty, and an empty cell has no room for a thing.
#[derive(Drop)]
pub(crate) struct Cells<T> {
    pub(crate) keys: Vec<Option<usize>>,
    pub(crate) entries: Slab<Entry<T>>,
    ghost back: { LeadBack (λ e. e.at) keys.items entries.slots } by { Π_prop (λ _. Π_prop (λ _. →_prop (Prim.hlevel props))) },
}

impl<T> Cells<T> {
    ghost use Rattle.std.specs.Prelude.{None, IfOk, OnSome, OnOk, OnErr, IfErr, option_copied, replicate, ◌<◌, ◌+◌, ◌≤◌, if◌then◌else◌, nat_eq};
    ghost use Rattle.slab.specs.Slab.{slab_len};
    ghost use Rattle.dd_pool.specs.Cells.{HasNew, cell};

    /// So many empty cells.
    pub(crate) fn new(alloc: Global, count: usize) -> Result<Cells<T>, AllocError>
        ensures size { IfOk result (λ c. length c.keys.items ≡ count) }
        ensures none { IfOk result (λ c. (i : ℕ) → cell c i ≡ None) }
    {
        Ok(Cells {
            keys: vec![in alloc; None; count]?,
            entries: Slab::new(alloc),
        })
    }

    /// What is in a cell.
    pub(crate) fn get(&self, at: usize) -> Option<&T>
        requires { at < length self.now.keys.items }
        ensures { option_copied result ≡ cell self.now at }
    {
        let key = self.keys[at]?;
        match self.entries.get(key) {
            Some(entry) => Some(&entry.item),
            None => None,
        }
    }

    /// Puts a thing into an empty cell.
    ///
    /// # Errors
    /// Want of memory. The thing comes back, and nothing was put.
    pub(crate) fn put(&mut self, at: usize, item: T) -> Result<(), T>
        requires place { at < length self.old.keys.items }
        requires empty { cell self.old at ≡ None }
        ensures size { length self.new.keys.items ≡ length self.old.keys.items }
        ensures ok { OnOk result (HasNew self.old self.new at (Some item)) }
        ensures err { OnErr result ((i : ℕ) → cell self.new i ≡ cell self.old i) }
        ensures back { IfErr result (λ t. t ≡ item) }
    {
        match self.entries.insert(Entry { at, item }) {
            Ok(key) => {
                self.keys[at] = Some(key);
                Ok(())
            }
            Err(failed) => Err(failed.value.item),
        }
    }

    /// Takes out what is in a cell.
    pub(crate) fn take(&mut self, at: usize) -> Option<T>
        requires place { at < length self.old.keys.items }
        ensures size { length self.new.keys.items ≡ length self.old.keys.items }
        ensures value { result ≡ cell self.old at }
        ensures left { HasNew self.old self.new at None }
        ensures room { OnSome result (slab_len self.new.entries + 1 ≤ self.new.entries.capacity) }
    {
        let key = self.keys[at]?;
        self.keys[at] = None;
        match self.entries.try_remove(key) {
            Some(entry) => Some(entry.item),
            None => None,
        }
    }

    /// Puts a thing into an empty cell, where there is room for it.
    pub(crate) fn put_back(&mut self, at: usize, item: T)
        requires place { at < length self.old.keys.items }
        requires empty { cell self.old at ≡ None }
        requires room { slab_len self.old.entries + 1 ≤ self.old.entries.capacity }
        ensures size { length self.new.keys.items ≡ length self.old.keys.items }
        ensures put { HasNew self.old self.new at (Some item) }
    {
        let key = self.entries.insert_reserved(Entry { at, item });
        self.keys[at] = Some(key);
    }
}
