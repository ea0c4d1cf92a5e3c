//! `copy_bench take STEP TIMES` takes places of a copy of 1,000,000 elements from another one, so many times, so that the time can be
//! measured. With step 1 these are all places, with another every place whose number it divides.
//!
//! `copy_bench tile WHICH TIMES` gathers a tile of 128 by 128 from a copy of a block of 128 by 128 and stores two in it that tasks made,
//! one after the other, each as often. The tile is the `block`, or lies `across` four, of which a quarter is in this one.
//!
//! With 0 times the program only makes the copies. The sum of the values then is printed, for comparison with the same work elsewhere.
//!
//! What is taken, gathered and stored is proved in `dd_stamps`. Of this program it is proved that it is safe and that it asks only
//! what `dd_stamps` takes; nothing is claimed of what it prints.
#![tactic(auto)]

mod plan;
mod taking;
mod tiles;

use anyhow::{Result, bail};
use plan::one_block;
use std::alloc::Global;
use std::env;
use taking::take_times;
use tiles::{ACROSS, BLOCK, tile_times};

fn main(rt: HostRuntime) -> Result<()> {
    let mut words = Vec::new(rt.alloc());
    for word in env::args(&rt)?.skip(1) {
        words.push(word)?;
    }
    let [work, which, times] = words.as_slice() else {
        bail!("words: take STEP TIMES, or tile block|across TIMES");
    };
    let sum = sum_after(rt.alloc(), work, which, times.parse()?)?;
    println!(rt; "{sum}")?;
    Ok(())
}

// The sum that a work ends with.
fn sum_after(alloc: Global, work: &str, which: &str, times: u32) -> Result<i64> {
    match (work, which) {
        ("take", step) => {
            let plan = one_block(alloc)?;
            take_times(alloc, &plan, step.parse()?, times)
        }
        ("tile", "block") => tile_times(alloc, BLOCK, times),
        ("tile", "across") => tile_times(alloc, ACROSS, times),
        _ => bail!("no such work"),
    }
}
