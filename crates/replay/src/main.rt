//! `replay` judges a journal: whether its entries are a whole legal run of a script.
//!
//! Standard input is the script, a line `!!`, and text with journal lines below it, as a run prints it with its journal. Of that
//! text the lines that begin with `!` are the entries; all others pass unread. It prints `yes E moved M` for a whole legal
//! run of E entries that moves M elements, `no L` where the entry of line L of the text, from 1, is the first that is no event
//! or isn't legal, and `short E` where all E are legal and the run isn't whole. A script that is refused is an error, with its
//! first fault.
//!
//! When an entry is legal and what it changes is proved in `dd_core`. Of this program it is proved that it is safe, whatever
//! its input is, and that it makes no entry that isn't legal; nothing is claimed of what it prints.
#![tactic(auto)]

mod journal;
mod judge;
mod lines;
mod script;
mod verdict;

use anyhow::{Result, bail};
use dd_io::{ReadEnd, StdSource, read_all};
use judge::judge;
use lines::parts;
use script::plan_of;

/// In bytes, the longest input.
const INPUT_LIMIT: usize = 268_435_456;

fn main(rt: HostRuntime) -> Result<()> {
    let input = match read_all(rt.alloc(), &mut StdSource::new(rt.stdin()), INPUT_LIMIT) {
        Ok(input) => input,
        Err(ReadEnd::TooLong) => bail!("line 0: TooLong {INPUT_LIMIT} 0"),
        Err(ReadEnd::ReadFault) => bail!("read fault"),
        Err(ReadEnd::Memory) => bail!("out of memory"),
    };
    let (script, journal) = parts(&input);
    let plan = plan_of(rt.alloc(), script)?;
    let verdict = judge(rt.alloc(), &plan, journal)?;
    println!(rt; "{verdict}")?;
    Ok(())
}
