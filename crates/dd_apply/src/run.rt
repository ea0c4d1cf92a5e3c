ghost use Rattle.std.specs.Prelude.{◌≡◌, ℤ, List, map};
ghost use Rattle.dd_kernels.specs.Agreement.{AgreeWhereOnlyRead, AgreeWhereRead};
ghost use Rattle.dd_kernels.specs.Shapes.{ShapesFit, HaveShapes};
ghost use Rattle.dd_kernels.specs.Table.{results};

use dd_kernels::{Args, Kernel, is_plain, plain};
use dd_packed::packed;

/// Runs a kernel on owned buffers. A kernel without a scalar ignores it. It takes no memory.
pub fn apply(k: Kernel, scalar: i64, args: &mut Args)
    requires fit { ShapesFit k args.old.shapes.items }
    requires filled { HaveShapes args.old.shapes.items (map (λ b. b.items) args.old.bufs.items) }
    ensures shapes { args.new.shapes.items ≡ args.old.shapes.items }
    ensures results { map (λ b. b.items) args.new.bufs.items
        ≡ results k scalar args.old.shapes.items (map (λ b. b.items) args.old.bufs.items) }
    ensures filled { HaveShapes args.new.shapes.items (map (λ b. b.items) args.new.bufs.items) }

    // A list that the kernel only reads stays, and one that it only writes counts for nothing.
    ensures stays { AgreeWhereOnlyRead k (map (λ b. b.items) args.old.bufs.items) (map (λ b. b.items) args.new.bufs.items) }
    ensures overwritten { (others : List (List ℤ)) → AgreeWhereRead k (map (λ b. b.items) args.old.bufs.items) others
        → map (λ b. b.items) args.new.bufs.items ≡ results k scalar args.old.shapes.items others }
{
    if is_plain(k) {
        plain(k, scalar, args);
    } else {
        packed(k, args);
    }
}
