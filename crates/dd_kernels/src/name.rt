//! The words that name the kernels in a script.
ghost use Rattle.std.specs.Prelude.{◌≡◌, ◌↔◌, Option, Some};
ghost use Rattle.dd_kernels.specs.declared.kernel.Kernel.{Kernel};
ghost use Rattle.dd_kernels.specs.Names.{name_of};

use crate::kernel::Kernel;

/// The kernels in the order of the table.
const KERNELS: [Kernel; 29] = [
    Kernel::Fill,
    Kernel::Addk,
    Kernel::Scale,
    Kernel::Copy,
    Kernel::Copyt,
    Kernel::Add,
    Kernel::Sub,
    Kernel::Mul,
    Kernel::Axpy,
    Kernel::Xor,
    Kernel::Min,
    Kernel::Max,
    Kernel::Neg,
    Kernel::Rev,
    Kernel::Rot,
    Kernel::Sort,
    Kernel::Scan,
    Kernel::Sum,
    Kernel::Dot,
    Kernel::Swap,
    Kernel::Iota,
    Kernel::Gemm,
    Kernel::Gemv,
    Kernel::Stencil5,
    Kernel::Trmv,
    Kernel::TrsvUnit,
    Kernel::TrsmUnit,
    Kernel::Mirror,
    Kernel::SyrkPacked,
];

/// The kernel that a word names; None for a word that names none. It takes no memory.
pub fn kernel_named(word: &[u8]) -> Option<Kernel>
    ensures { (k : Kernel) → (result ≡ Some k) ↔ (word.now ≡ name_of k) }
{
    for k in KERNELS {
        if name_of(k) == word {
            return Some(k);
        }
    }
    None
}

/// The word that names a kernel.
fn name_of(k: Kernel) -> &'static [u8]
    ensures { result.now ≡ name_of k }
{
    match k {
        Kernel::Fill => b"fill",
        Kernel::Addk => b"addk",
        Kernel::Scale => b"scale",
        Kernel::Copy => b"copy",
        Kernel::Copyt => b"copyt",
        Kernel::Add => b"add",
        Kernel::Sub => b"sub",
        Kernel::Mul => b"mul",
        Kernel::Axpy => b"axpy",
        Kernel::Xor => b"xor",
        Kernel::Min => b"min",
        Kernel::Max => b"max",
        Kernel::Neg => b"neg",
        Kernel::Rev => b"rev",
        Kernel::Rot => b"rot",
        Kernel::Sort => b"sort",
        Kernel::Scan => b"scan",
        Kernel::Sum => b"sum",
        Kernel::Dot => b"dot",
        Kernel::Swap => b"swap",
        Kernel::Iota => b"iota",
        Kernel::Gemm => b"gemm",
        Kernel::Gemv => b"gemv",
        Kernel::Stencil5 => b"stencil5",
        Kernel::Trmv => b"trmv",
        Kernel::TrsvUnit => b"trsv_unit",
        Kernel::TrsmUnit => b"trsm_unit",
        Kernel::Mirror => b"mirror",
        Kernel::SyrkPacked => b"syrk_packed",
    }
}
