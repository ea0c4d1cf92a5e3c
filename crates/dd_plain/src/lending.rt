//! Which arrays a task may have without a copy.
ghost use Rattle.std.specs.Prelude.{◌≡◌};
ghost use Rattle.dd_plain.specs.Lending.{is_lent, is_run, keeps_all, uses_of};

use dd_blocks::AccessRow;
use dd_views::{Part, View};

/// Whether a part keeps all elements.
fn keeps_all(part: Part) -> bool
    ensures { result ≡ keeps_all part }
{
    match part {
        Part::All => true,
        Part::Lower | Part::Upper | Part::UnitLower | Part::UnitUpper | Part::Diag => false,
    }
}

/// Whether the elements of a view stand one after the other in its array: rows one after the other of at most one
/// column, or all rows of columns one after the other.
pub(crate) fn is_run(view: &View) -> bool
    ensures { result ≡ is_run view.now }
{
    keeps_all(view.part)
        && view.rows.step == 1
        && (view.cols.count <= 1 || view.cols.step == 1 && view.rows.count == view.height)
}

/// How many accesses are of an array.
fn uses_of(accesses: &[AccessRow], array: u32) -> usize
    ensures { result ≡ uses_of accesses.now array }
{
    accesses
        .iter()
        .filter(|access| access.view.array == array)
        .count()
}

/// Whether an access is a run of an array that no other one of the accesses uses. Its vector need not be copied then.
pub(crate) fn is_lent(accesses: &[AccessRow], access: &AccessRow) -> bool
    ensures { result ≡ is_lent accesses.now access.now }
{
    is_run(&access.view) && uses_of(accesses, access.view.array) == 1
}
