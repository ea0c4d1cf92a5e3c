//! The buffers of a round.
ghost use Rattle.std.specs.Prelude.{◌≡◌, ◌∷◌, [], ◌++◌, length, map, IfOk, OnOk};
ghost use Rattle.dd_kernels.specs.Shapes.{HaveShapes, ShapesFit, size_of};

use dd_apply::apply;
use dd_kernels::{Args, Kernel, Shape};
use std::alloc::{AllocError, Global};

/// One buffer of numbers for each shape. They follow from `seed`.
pub fn filled(alloc: Global, shapes: &[Shape], seed: u32) -> Result<Args, AllocError>
    ensures shapes { IfOk result (λ args. args.shapes.items ≡ shapes.now) }
    ensures lists { IfOk result (λ args. HaveShapes args.shapes.items (map (λ b. b.items) args.bufs.items)) }
{
    let mut args = Args {
        shapes: Vec::new(alloc),
        bufs: Vec::new(alloc),
    };
    let mut number = u64::from(seed);
    for shape in shapes {
        number = number.wrapping_add(0x9E37_79B9);
        add_buffer(alloc, &mut args, *shape, number)?;
    }
    Ok(args)
}

fn add_buffer(alloc: Global, args: &mut Args, shape: Shape, seed: u64) -> Result<(), AllocError>
    requires { HaveShapes args.old.shapes.items (map (λ b. b.items) args.old.bufs.items) }
    ensures shapes { OnOk result (args.new.shapes.items ≡ args.old.shapes.items ++ shape ∷ []) }
    ensures lists { OnOk result (HaveShapes args.new.shapes.items (map (λ b. b.items) args.new.bufs.items)) }
{
    let numbers = numbers(alloc, shape, seed)?;
    args.shapes.push(shape)?;
    args.bufs.push(numbers)?;
    Ok(())
}

/// Numbers by a linear congruence.
fn numbers(alloc: Global, shape: Shape, seed: u64) -> Result<Vec<i64>, AllocError>
    ensures { IfOk result (λ v. length v.items ≡ size_of shape) }
{
    let mut numbers = vec![in alloc; 0i64; shape.rows as usize * shape.cols as usize]?;
    let mut state = seed;
    for number in numbers.iter_mut() {
        state = state
            .wrapping_mul(6364136223846793005)
            .wrapping_add(1442695040888963407);
        *number = (state >> 1) as i64;
    }
    Ok(numbers)
}

/// Runs a kernel so many times on the same buffers.
pub fn run_times(k: Kernel, scalar: i64, times: u32, args: &mut Args)
    requires fit { ShapesFit k args.old.shapes.items }
    requires filled { HaveShapes args.old.shapes.items (map (λ b. b.items) args.old.bufs.items) }
{
    for _ in 0..times {
        apply(k, scalar, args);
    }
}

/// A checksum of the buffers, in which each place counts, continued from `sum`.
pub fn checksum(sum: i64, bufs: &[Vec<i64>]) -> i64 {
    let mut sum = sum;
    for numbers in bufs {
        for number in numbers {
            sum = sum.wrapping_mul(31).wrapping_add(*number);
        }
    }
    sum
}
