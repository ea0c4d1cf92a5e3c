//! Which shapes a kernel takes.
ghost use Rattle.std.specs.Prelude.{◌≡◌, ℕ, ◌+◌, ◌*◌, ◌<◌, ◌↔◌, IsTrue, [], ◌∷◌};
ghost use Rattle.dd_kernels.specs.Shapes.{
  ShapesFit,
  AreSame,
  AreTransposed,
  IsSingle,
  Multiply,
  IsTriangle,
  IsStrictTriangle,
  AreStrictTriangles,
};
ghost use Rattle.dd_kernels.specs.declared.shape.Shape.{Shape};

use crate::kernel::Kernel;
use crate::shape::Shape;

/// Whether a kernel's accesses may have these shapes; false where there aren't as many as accesses.
/// It takes no memory.
pub fn shapes_fit(k: Kernel, shapes: &[Shape]) -> bool
    ensures { IsTrue result ↔ ShapesFit k shapes.now }
{
    match shapes {
        [_] => takes_one(k),
        [x, y] => fit_two(k, *x, *y),
        [x, y, z] => fit_three(k, *x, *y, *z),
        _ => false,
    }
}

/// Whether a kernel has one access, which may have any shape.
fn takes_one(k: Kernel) -> bool
    ensures { (x : Shape) → IsTrue result ↔ ShapesFit k (x ∷ []) }
{
    matches!(
        k,
        Kernel::Fill
            | Kernel::Addk
            | Kernel::Scale
            | Kernel::Neg
            | Kernel::Rev
            | Kernel::Rot
            | Kernel::Sort
            | Kernel::Scan
            | Kernel::Iota
    )
}

fn fit_two(k: Kernel, x: Shape, y: Shape) -> bool
    ensures { IsTrue result ↔ ShapesFit k (x ∷ y ∷ []) }
{
    match k {
        Kernel::Copy
        | Kernel::Add
        | Kernel::Sub
        | Kernel::Mul
        | Kernel::Axpy
        | Kernel::Xor
        | Kernel::Min
        | Kernel::Max
        | Kernel::Swap
        | Kernel::Stencil5 => are_same(x, y),
        Kernel::Copyt => x.rows == y.cols && x.cols == y.rows,
        Kernel::Sum => is_single(x),
        Kernel::Trmv => x.cols == 1 && is_triangle(x.rows, y),
        Kernel::TrsvUnit => x.cols == 1 && is_strict_triangle(x.rows, y),
        Kernel::TrsmUnit => is_strict_triangle(x.rows, y),
        Kernel::Mirror => are_strict_triangles(x, y),
        Kernel::SyrkPacked => is_triangle(y.rows, x),
        _ => false,
    }
}

fn fit_three(k: Kernel, x: Shape, y: Shape, z: Shape) -> bool
    ensures { IsTrue result ↔ ShapesFit k (x ∷ y ∷ z ∷ []) }
{
    match k {
        Kernel::Dot => is_single(x) && are_same(y, z),
        Kernel::Gemm => multiply(x, y, z),
        Kernel::Gemv => multiply(x, y, z) && x.cols == 1,
        _ => false,
    }
}

fn is_single(s: Shape) -> bool
    ensures { IsTrue result ↔ IsSingle s }
{
    s.rows == 1 && s.cols == 1
}

fn are_same(x: Shape, y: Shape) -> bool
    ensures { IsTrue result ↔ AreSame x y }
{
    x.rows == y.rows && x.cols == y.cols
}

/// Whether `c` is m by n, `a` m by p and `b` p by n.
fn multiply(c: Shape, a: Shape, b: Shape) -> bool
    ensures { IsTrue result ↔ Multiply c a b }
{
    c.rows == a.rows && a.cols == b.rows && c.cols == b.cols
}

/// Whether `s` is one column of n (n + 1) / 2 elements.
fn is_triangle(n: u32, s: Shape) -> bool
    ensures { IsTrue result ↔ IsTriangle n s }
{
    let n = u64::from(n);
    2 * u64::from(s.rows) == n * (n + 1) && s.cols == 1
}

/// Whether `s` is one column of n (n - 1) / 2 elements.
fn is_strict_triangle(n: u32, s: Shape) -> bool
    ensures { IsTrue result ↔ IsStrictTriangle n s }
{
    let n = u64::from(n);
    2 * u64::from(s.rows) + n == n * n && s.cols == 1
}

/// Whether both are one column of n (n - 1) / 2 elements for one n of at least 1.
fn are_strict_triangles(x: Shape, y: Shape) -> bool
    ensures { IsTrue result ↔ AreStrictTriangles x y }
{
    is_strict_length(x.rows) && x.cols == 1 && are_same(x, y)
}

/// Whether `rows` is n (n - 1) / 2 for some n of at least 1.
fn is_strict_length(rows: u32) -> bool
    ensures { IsTrue result ↔ ((n : ℕ) × (0 < n) × (2 * rows + n ≡ n * n)) }
{
    let twice = 2 * u64::from(rows);
    let root = twice.isqrt();
    root * (root + 1) == twice
}
