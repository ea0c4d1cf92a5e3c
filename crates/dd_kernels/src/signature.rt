//! What a task must name: whether there is a scalar, and how each access is used.
ghost use Rattle.std.specs.Prelude.{◌≡◌, ◌↔◌, IsTrue, List, [], ◌∷◌};
ghost use Rattle.dd_kernels.specs.Signatures.{TakesScalar, modes_of};

use crate::kernel::Kernel;
use std::marker::Model;

/// How a task uses an access.
#[derive(Clone, Copy, Debug, PartialEq, Eq)]
pub enum Mode {
    Read,
    Write,
    Both,
}

/// The modes of a kernel's accesses in order: at most three.
#[derive(Debug, Drop)]
pub struct Modes {
    places: [Mode; 3],
    count: usize,
}

impl Model for Modes {
    ghost use Rattle.std.specs.Prelude.{ℕ, ◌≤◌, List, take};
    ghost use Rattle.dd_kernels.specs.declared.signature.Mode.{Mode};

    ghost Value = { List Mode };

    ghost view = { λ m. take m.count m.places };

    ghost invariant = { λ m. m.count ≤ 3 };
}

impl Modes {
    fn one(first: Mode) -> Self
        ensures { result ≡ first ∷ [] }
    {
        Modes {
            places: [first, Mode::Read, Mode::Read],
            count: 1,
        }
    }

    fn two(first: Mode, second: Mode) -> Self
        ensures { result ≡ first ∷ second ∷ [] }
    {
        Modes {
            places: [first, second, Mode::Read],
            count: 2,
        }
    }

    fn three(first: Mode, second: Mode, third: Mode) -> Self
        ensures { result ≡ first ∷ second ∷ third ∷ [] }
    {
        Modes {
            places: [first, second, third],
            count: 3,
        }
    }

    pub fn as_slice(&self) -> &[Mode]
        ensures { result.now ≡ self.now }
    {
        &self.places[..self.count]
    }
}

/// Whether a kernel takes a scalar, and the modes of its accesses.
#[derive(Debug, Drop)]
pub struct Signature {
    pub scalar: bool,
    pub modes: Modes,
}

/// What a task of this kernel must name. It takes no memory.
pub fn signature_of(k: Kernel) -> Signature
    ensures scalar { IsTrue result.scalar ↔ TakesScalar k }
    ensures modes { result.modes ≡ modes_of k }
{
    Signature {
        scalar: takes_scalar(k),
        modes: modes_of(k),
    }
}

fn takes_scalar(k: Kernel) -> bool
    ensures { IsTrue result ↔ TakesScalar k }
{
    matches!(
        k,
        Kernel::Fill | Kernel::Addk | Kernel::Scale | Kernel::Axpy | Kernel::Rot | Kernel::Iota
    )
}

fn modes_of(k: Kernel) -> Modes
    ensures { result ≡ modes_of k }
{
    match k {
        Kernel::Fill | Kernel::Iota => Modes::one(Mode::Write),
        Kernel::Addk
        | Kernel::Scale
        | Kernel::Neg
        | Kernel::Rev
        | Kernel::Rot
        | Kernel::Sort
        | Kernel::Scan => Modes::one(Mode::Both),
        Kernel::Copy | Kernel::Copyt | Kernel::Sum | Kernel::Stencil5 => {
            Modes::two(Mode::Write, Mode::Read)
        }
        Kernel::Add
        | Kernel::Sub
        | Kernel::Mul
        | Kernel::Axpy
        | Kernel::Xor
        | Kernel::Min
        | Kernel::Max
        | Kernel::Trmv
        | Kernel::TrsvUnit
        | Kernel::TrsmUnit
        | Kernel::SyrkPacked => Modes::two(Mode::Both, Mode::Read),
        Kernel::Swap => Modes::two(Mode::Both, Mode::Both),
        Kernel::Mirror => Modes::two(Mode::Read, Mode::Write),
        Kernel::Dot => Modes::three(Mode::Write, Mode::Read, Mode::Read),
        Kernel::Gemm | Kernel::Gemv => Modes::three(Mode::Both, Mode::Read, Mode::Read),
    }
}
