//! Whether the numbers of a statement are in their ranges.

ghost use Rattle.std.specs.Prelude.{◌≡◌};
ghost use Rattle.std.specs.List.{list_all};
ghost use Rattle.dd_script.specs.Numbers.{argument_fits, scalar_fits, numbers_fit};

use crate::argument::Argument;
use crate::numeral::Numeral;
use crate::written::Written;

fn scalar_fits(scalar: &Option<Numeral>) -> bool
    ensures { result ≡ scalar_fits scalar.now }
{
    match scalar {
        Some(number) => number.fits(),
        None => true,
    }
}

fn arguments_fit(arguments: &[Argument]) -> bool
    ensures { result ≡ list_all argument_fits arguments.now }
{
    arguments.iter().all(|argument| argument.fits())
}

/// Whether each number is in the range of an `i64`, and the limit of a space is one.
pub(crate) fn numbers_fit(written: &Written) -> bool
    ensures { result ≡ numbers_fit written.now }
{
    match written {
        Written::Space { limit, .. } => limit.is_limit(),
        Written::Array {
            rows,
            cols,
            brows,
            bcols,
            fill,
            ..
        } => rows.fits() && cols.fits() && brows.fits() && bcols.fits() && fill.fits(),
        Written::Task {
            scalar,
            arguments,
            ..
        } => scalar_fits(scalar) && arguments_fit(arguments.as_slice()),
        _ => true,
    }
}
