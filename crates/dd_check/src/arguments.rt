//! Whether the arguments of a task are what its kernel takes.
ghost use Rattle.std.specs.Prelude.{◌≡◌, ◌↔◌, ◌+◌, IsTrue, List, length, map};
ghost use Rattle.std.specs.List.{AllZip};
ghost use Rattle.dd_kernels.specs.Signatures.{modes_of, TakesScalar};
ghost use Rattle.dd_blocks.specs.Tasks.{MayBe};
ghost use Rattle.dd_check.specs.Kinds.{TakesGiven, Wants, one_where};
ghost use Rattle.dd_script.specs.declared.piece.Piece.{Piece};

use dd_kernels::{Kernel, Mode, signature_of};
use dd_script::Piece;

/// Whether a scalar is there exactly where the kernel takes one, and there are as many accesses as it takes.
pub(crate) fn has_right_count(k: Kernel, scalar: Option<i64>, pieces: &[Piece]) -> bool
    ensures { IsTrue result ↔ (TakesGiven k scalar × (length pieces.now ≡ length (modes_of k))) }
{
    let wanted = signature_of(k);
    wanted.scalar == scalar.is_some() && pieces.len() == wanted.modes.as_slice().len()
}

/// How many arguments are given, the scalar counted.
pub(crate) fn given(scalar: Option<i64>, pieces: &[Piece]) -> u64
    ensures { result ≡ one_where scalar + length pieces.now }
{
    u64::from(scalar.is_some()) + pieces.len() as u64
}

/// How many arguments the kernel takes, the scalar counted.
pub(crate) fn wanted(k: Kernel) -> u64
    ensures { Wants k result }
{
    let wanted = signature_of(k);
    u64::from(wanted.scalar) + wanted.modes.as_slice().len() as u64
}

/// Whether an access of the mode may stand where the kernel takes another.
fn may_be(wanted: Mode, given: Mode) -> bool
    ensures { IsTrue result ↔ MayBe wanted given }
{
    match wanted {
        Mode::Read => given == Mode::Read,
        Mode::Write => given != Mode::Read,
        Mode::Both => given == Mode::Both,
    }
}

/// Whether each access is used as the kernel takes it.
pub(crate) fn has_right_modes(k: Kernel, pieces: &[Piece]) -> bool
    requires { length pieces.now ≡ length (modes_of k) }
    ensures { IsTrue result ↔ AllZip MayBe (modes_of k) (map (λ (p : Piece). p.mode) pieces.now) }
{
    let signature = signature_of(k);
    for (wanted, piece) in signature.modes.as_slice().iter().zip(pieces) {
        if !may_be(*wanted, piece.mode) {
            return false;
        }
    }
    true
}
