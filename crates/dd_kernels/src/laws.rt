//! Laws over the definitions of this crate. Each is a function without arguments whose contract is the law.

ghost use Rattle.std.specs.Prelude.{◌≡◌, ◌<◌, ℕ, ℤ, List};
ghost use Rattle.std.specs.List.Sorted.{IsPermutation, IsSorted};
ghost use Rattle.std.specs.Ordering.{int_cmp};
ghost use Rattle.dd_kernels.specs.declared.shape.Shape.{Shape};
ghost use Rattle.dd_kernels.specs.Lists.{rising};
ghost use Rattle.dd_kernels.specs.Packed.{strict_order};
ghost use Rattle.dd_kernels.specs.Shapes.{IsStrictTriangle};

/// The rising order of a list is sorted and a permutation of the list, and no other list is both.
pub fn rising_permutation()
    ensures sorted { (xs : List ℤ) → IsSorted int_cmp (rising xs) }
    ensures permutation { (xs : List ℤ) → IsPermutation xs (rising xs) }
    ensures only { (xs ys : List ℤ) → IsPermutation xs ys → IsSorted int_cmp ys → ys ≡ rising xs }
{}

/// The order of a packed triangle without its diagonal, of order 1 or more, is the one that its length has.
pub fn order_of_length()
    ensures { (n : ℕ) (s : Shape) → 0 < n → IsStrictTriangle n s → strict_order s.rows ≡ n }
{}
