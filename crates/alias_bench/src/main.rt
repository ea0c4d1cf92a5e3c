//! `alias_bench` asks again and again which views overlap, or which tasks must wait for which, so that the time can be
//! measured.
//!
//! `alias_bench tiles TIMES TILES SIDE` makes a task for each of TILES by TILES tiles of an array, each tile SIDE by SIDE. A
//! task writes its tile, and reads one of the same row and one of the same column. It asks for the dependencies of all,
//! and prints how many there are.
//!
//! `alias_bench elements TIMES COUNT STEP` makes COUNT tasks that read and write one element each of a column of COUNT elements,
//! and asks for their dependencies. From each task to the next it is STEP elements, and the first comes behind the last. With a step
//! of 0 all are on one element.
//!
//! `alias_bench views TIMES ROWS COLS` and two views of an array of that size asks whether the views overlap, and prints how
//! often they do. A view is first, step and last row, first, step and last column, and a part, as in
//! `alias_bench views 10 4 4 1 1 4 1 1 4 lower 1 1 4 1 1 4 unitupper`.
//!
//! What overlaps, and what the dependencies are, is proved in `dd_alias`. Of this program it is proved that it is safe and
//! that it asks only what `dd_alias` takes; nothing is claimed of what it prints.
#![tactic(auto)]

mod elements;
mod questions;
mod task;
mod tiles;
mod words;

use anyhow::{Result, bail};
use elements::tasks_on;
use questions::{ask_deps, ask_overlap};
use std::env;
use tiles::tasks_of;
use words::{elements_of, read_views, tiling_of};

fn main(rt: HostRuntime) -> Result<()> {
    let mut words = Vec::new(rt.alloc());
    for word in env::args(&rt)?.skip(1) {
        words.push(word)?;
    }
    let [question, times, rest @ ..] = words.as_slice() else {
        bail!("words: tiles, elements or views, then TIMES ..");
    };
    let times = times.parse()?;
    let answer = match question.as_str() {
        "tiles" => {
            let tasks = tasks_of(rt.alloc(), tiling_of(rest)?)?;
            ask_deps(rt.alloc(), times, &tasks)?
        }
        "elements" => {
            let tasks = tasks_on(rt.alloc(), elements_of(rest)?)?;
            ask_deps(rt.alloc(), times, &tasks)?
        }
        "views" => {
            let views = read_views(rest)?;
            ask_overlap(times, &views.0, &views.1)
        }
        _ => bail!("no question"),
    };
    println!(rt; "{answer}")?;
    Ok(())
}
