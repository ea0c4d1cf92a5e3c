//! `store_bench FOLDER BLOCKS ELEMENTS` writes so many blocks of so many values to files and reads them back, so that the
//! time can be measured.
//!
//! Each block goes to a slot of its own, by `append_values`; when all are written, each comes back by `read_values` and its
//! slot is ended. With 0 blocks the program only makes the values of one. The sum of all values is printed, for comparison
//! with the same work elsewhere. The folder is left behind.
//!
//! What goes to a slot is proved in `dd_store`. Of this program it is proved that it is safe; nothing is claimed of what it prints.
#![tactic(auto)]

use anyhow::{Result, bail, ensure};
use dd_store::{DirSlot, DirStore, Store, append_values, read_values};
use std::alloc::{AllocError, Global};
use std::env;

fn main(rt: HostRuntime) -> Result<()> {
    let mut words = Vec::new(rt.alloc());
    for word in env::args(&rt)?.skip(1) {
        words.push(word)?;
    }
    let [folder, blocks, elements] = words.as_slice() else {
        bail!("words: FOLDER BLOCKS ELEMENTS");
    };
    let mut store = DirStore::new(&rt, rt.alloc(), folder)?;
    let values = values_of(rt.alloc(), elements.parse()?)?;
    let slots = written(rt.alloc(), &mut store, blocks.parse()?, &values)?;
    let sum = sum_of_all(rt.alloc(), &mut store, slots, values.len())?;
    println!(rt; "{sum}")?;
    Ok(())
}

// Values that differ in all of their bytes.
fn values_of(alloc: Global, elements: u32) -> Result<Vec<i64>, AllocError> {
    (0..elements)
        .map(|at| i64::from(at).wrapping_mul(0x0123_4567_89AB_CDEF))
        .collect(alloc)
}

// Slots that hold the values, so many of them.
fn written(
    alloc: Global,
    store: &mut DirStore<HostRuntime>,
    blocks: u32,
    values: &[i64],
) -> Result<Vec<DirSlot<HostRuntime>>> {
    let mut slots = Vec::new(alloc);
    for _ in 0..blocks {
        ensure!(store.made() < u64::MAX, "too many slots");
        let mut slot = store.make()?;
        append_values(alloc, &mut slot, values)?;
        slots.push(slot)?;
    }
    Ok(slots)
}

// The sum of the values of all slots, which wraps. The slots are ended.
fn sum_of_all(
    alloc: Global,
    store: &mut DirStore<HostRuntime>,
    slots: Vec<DirSlot<HostRuntime>>,
    elements: usize,
) -> Result<i64> {
    let mut sum = 0i64;
    for slot in slots {
        let mut slot = slot;
        for value in read_values(alloc, &mut slot, elements)?.as_slice() {
            sum = sum.wrapping_add(*value);
        }
        store.end(slot);
    }
    Ok(sum)
}
