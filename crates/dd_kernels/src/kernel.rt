ghost use Rattle.std.specs.Prelude.{◌↔◌, IsTrue};
ghost use Rattle.dd_kernels.specs.Table.{IsPlain};

/// What a task computes. `X` is the first access, `Y` and `Z` those after it; a product of matrices
/// calls them `C`, `A` and `B`. Sums, differences and products wrap in two's complement.
#[derive(Clone, Copy, Debug, PartialEq, Eq)]
pub enum Kernel {
    /// Writes the scalar into each element of `X`.
    Fill,
    /// Adds the scalar to each element of `X`.
    Addk,
    /// Multiplies each element of `X` by the scalar.
    Scale,
    /// Writes `Y` into `X`.
    Copy,
    /// Writes `Y` into `X`, rows as columns.
    Copyt,
    /// Adds `Y` to `X`.
    Add,
    /// Subtracts `Y` from `X`.
    Sub,
    /// Multiplies `X` by `Y`, place by place.
    Mul,
    /// Adds the scalar times `Y` to `X`.
    Axpy,
    /// The exclusive or of `X` and `Y`, bit by bit.
    Xor,
    /// The lesser of `X` and `Y`, place by place.
    Min,
    /// The greater of `X` and `Y`, place by place.
    Max,
    /// Subtracts each element of `X` from 0.
    Neg,
    /// Turns the order of `X` round.
    Rev,
    /// Moves each element of `X` to the front by the scalar, round the end.
    Rot,
    /// Puts `X` in rising order.
    Sort,
    /// Writes into each place of `X` the sum of the elements up to it.
    Scan,
    /// Writes the sum of `Y` into the one element of `X`.
    Sum,
    /// Writes the sum of the products of `Y` and `Z` into the one element of `X`.
    Dot,
    /// Exchanges `X` and `Y`.
    Swap,
    /// Writes the scalar and the numbers after it into `X`.
    Iota,
    /// Adds the product of the matrices `A` and `B` to `C`.
    Gemm,
    /// Adds the product of the matrix `Y` and the column `Z` to the column `X`.
    Gemv,
    /// Writes into each place of `X` the sum of the four neighbours in `Y`, less four times the place.
    Stencil5,
    /// Multiplies a packed lower triangle by a column.
    Trmv,
    /// Solves a packed lower triangle with ones on its diagonal for one column.
    TrsvUnit,
    /// Solves a packed lower triangle with ones on its diagonal for each column of `X`.
    TrsmUnit,
    /// Writes a packed strictly lower triangle as the strictly upper one.
    Mirror,
    /// Adds the lower triangle of `A` times itself transposed to a packed triangle.
    SyrkPacked,
}

/// Whether [`plain`](crate::plain) runs a kernel. The others work on packed triangles.
pub fn is_plain(k: Kernel) -> bool
    ensures { IsTrue result ↔ IsPlain k }
{
    !matches!(
        k,
        Kernel::Trmv | Kernel::TrsvUnit | Kernel::TrsmUnit | Kernel::Mirror | Kernel::SyrkPacked
    )
}
