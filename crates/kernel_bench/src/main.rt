//! `kernel_bench` runs one kernel again and again on numbers of its own, so that its time can be measured.
//!
//! Its words are the kernel's name, how many rounds, how many runs in each, the scalar, and the rows and
//! columns of each access, as in `kernel_bench gemm 1 10 0 128 128 128 128 128 128`. A round makes its
//! buffers anew. A checksum of all of them is printed at the end, for comparison with the same loops
//! elsewhere.
//!
//! What a kernel computes is proved in `dd_kernels` and `dd_packed`. Of this program it is proved that it is safe and that
//! it runs kernels only on buffers that they take; nothing is claimed of what it prints.
#![tactic(auto)]

mod buffers;
mod order;

use anyhow::Result;
use buffers::{checksum, filled, run_times};
use order::read_order;
use std::env;

fn main(rt: HostRuntime) -> Result<()> {
    let mut words = Vec::new(rt.alloc());
    for word in env::args(&rt)?.skip(1) {
        words.push(word)?;
    }
    let order = read_order(rt.alloc(), &words)?;
    let mut sum = 0i64;
    for round in 0..order.rounds {
        let mut args = filled(rt.alloc(), &order.shapes, round)?;
        run_times(order.kernel, order.scalar, order.times, &mut args);
        sum = checksum(sum, &args.bufs);
    }
    println!(rt; "{sum}")?;
    Ok(())
}
