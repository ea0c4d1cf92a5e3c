//! Whether two tasks must keep their order.
ghost use Rattle.std.specs.Prelude.{◌≡◌, ◌↔◌, ◌⊎◌, ℕ, true, IsTrue, Any, [], ◌∷◌};
ghost use Rattle.dd_views.specs.declared.shape.Shape.{Shape};
ghost use Rattle.dd_views.specs.Views.{IsViewOf};
ghost use Rattle.dd_blocks.specs.Conflicts.{AreInConflict};
ghost use Rattle.dd_blocks.specs.Elements.{writes};
ghost use Rattle.dd_alias.specs.Clashes.{Clash, ClashesWithSome};
ghost use Rattle.dd_alias.specs.Shapes.{AreViewsBy, HaveOneShape};

use crate::meeting::overlap;
use dd_blocks::{AccessRow, TaskRow};
use dd_kernels::Mode;

/// Whether some element is written by one of both tasks and read or written by the other, where all views of an array
/// are of one shape. What is accessed both ways is read and written. It takes no memory.
pub fn conflict(u: &TaskRow, t: &TaskRow) -> bool
    requires { HaveOneShape (u.now ∷ t.now ∷ []) }
    ensures { IsTrue result ↔ AreInConflict u.now t.now }
{
    some_clash(u.accesses.as_slice(), t.accesses.as_slice())
}

/// Whether some access of the ones clashes with some of the others.
fn some_clash(ones: &[AccessRow], others: &[AccessRow]) -> bool
    requires { (shape_at : ℕ → Shape) × AreViewsBy shape_at ones.now × AreViewsBy shape_at others.now }
    ensures { IsTrue result ↔ Any (λ a. ClashesWithSome a others.now) ones.now }
{
    for access in ones {
        if clashes_with_some(access, others) {
            return true;
        }
    }
    false
}

/// Whether an access clashes with some of the others.
fn clashes_with_some(access: &AccessRow, others: &[AccessRow]) -> bool
    requires { (shape_at : ℕ → Shape) × IsViewOf (shape_at access.now.view.array) access.now.view × AreViewsBy shape_at others.now }
    ensures { IsTrue result ↔ ClashesWithSome access.now others.now }
{
    for other in others {
        if clash(access, other) {
            return true;
        }
    }
    false
}

/// Whether two accesses share an element, and one of them writes.
fn clash(a: &AccessRow, b: &AccessRow) -> bool
    requires { (shape_at : ℕ → Shape) × IsViewOf (shape_at a.now.view.array) a.now.view × IsViewOf (shape_at b.now.view.array) b.now.view }
    ensures { IsTrue result ↔ Clash a.now b.now }
{
    if !has_write(a.mode, b.mode) {
        return false;
    }
    overlap(&a.view, &b.view)
}

/// Whether one of both modes writes.
fn has_write(a: Mode, b: Mode) -> bool
    ensures { IsTrue result ↔ ((writes a ≡ true) ⊎ (writes b ≡ true)) }
{
    a != Mode::Read || b != Mode::Read
}
