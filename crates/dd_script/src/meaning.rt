//! The statement that stands in a line, once its form is known.

ghost use Rattle.std.specs.Prelude.{◌≡◌, true, ℤ, Option, None, Some, IfOk, IfErr, unsigned_abs};
ghost use Rattle.std.specs.Option.{option_map};
ghost use Rattle.std.specs.List.{list_all};
ghost use Rattle.dd_tokens.specs.declared.fault.LineFault.TheVariants.{Memory};
ghost use Rattle.dd_script.specs.declared.statement.Statement.TheVariants.{Space, Proc, Array, Same, Drop, MoveTo, Task, Print, Sum};
ghost use Rattle.dd_script.specs.Int64.{fits_int64};
ghost use Rattle.dd_script.specs.Numbers.{is_limit, filling_fits, argument_fits, scalar_fits, numbers_fit};
ghost use Rattle.dd_script.specs.Pieces.{gathered, pieces_of};
ghost use Rattle.dd_script.specs.PieceFaults.{IsPartFault};
ghost use Rattle.dd_script.specs.Reads.{meaning};

use crate::argument::Argument;
use crate::numeral::Numeral;
use crate::piece::Piece;
use crate::pieces::add_arguments;
use crate::statement::Statement;
use crate::word::Word;
use crate::written::Written;
use dd_blocks::Name;
use dd_tokens::LineFault;
use dd_views::Items;
use std::alloc::{AllocError, Global};

fn name(alloc: Global, word: &Word) -> Result<Name, AllocError>
    ensures { IfOk result (λ name. name ≡ word.now) }
{
    Name::of(alloc, word.as_bytes())
}

fn space(alloc: Global, space: &Word, limit: &Numeral) -> Result<Statement, LineFault>
    requires { is_limit limit.now ≡ true }
    ensures ok { IfOk result (λ x. x ≡ Space space.now (unsigned_abs limit.now)) }
    ensures err { IfErr result (λ e. e ≡ Memory) }
{
    let name = name(alloc, space)?;
    Ok(Statement::Space {
        name,
        limit: limit.limit(),
    })
}

fn proc(alloc: Global, processor: &Word, space: &Word) -> Result<Statement, LineFault>
    ensures ok { IfOk result (λ x. x ≡ Proc processor.now space.now) }
    ensures err { IfErr result (λ e. e ≡ Memory) }
{
    let name = name(alloc, processor)?;
    let space = self::name(alloc, space)?;
    Ok(Statement::Proc { name, space })
}

fn same(alloc: Global, new: &Word, old: &Word) -> Result<Statement, LineFault>
    ensures ok { IfOk result (λ x. x ≡ Same new.now old.now) }
    ensures err { IfErr result (λ e. e ≡ Memory) }
{
    let name = name(alloc, new)?;
    let old = self::name(alloc, old)?;
    Ok(Statement::Same { name, old })
}

fn move_to(alloc: Global, array: &Word, space: &Word) -> Result<Statement, LineFault>
    ensures ok { IfOk result (λ x. x ≡ MoveTo array.now space.now) }
    ensures err { IfErr result (λ e. e ≡ Memory) }
{
    let name = name(alloc, array)?;
    let space = self::name(alloc, space)?;
    Ok(Statement::MoveTo { name, space })
}

fn drop_name(alloc: Global, array: &Word) -> Result<Statement, LineFault>
    ensures ok { IfOk result (λ x. x ≡ Drop array.now) }
    ensures err { IfErr result (λ e. e ≡ Memory) }
{
    let name = name(alloc, array)?;
    Ok(Statement::Drop(name))
}

fn print(alloc: Global, array: &Word) -> Result<Statement, LineFault>
    ensures ok { IfOk result (λ x. x ≡ Print array.now) }
    ensures err { IfErr result (λ e. e ≡ Memory) }
{
    let name = name(alloc, array)?;
    Ok(Statement::Print(name))
}

fn sum(alloc: Global, array: &Word) -> Result<Statement, LineFault>
    ensures ok { IfOk result (λ x. x ≡ Sum array.now) }
    ensures err { IfErr result (λ e. e ≡ Memory) }
{
    let name = name(alloc, array)?;
    Ok(Statement::Sum(name))
}

/// The accesses of a task.
fn pieces(alloc: Global, arguments: &[Argument]) -> Result<Items<Piece>, LineFault>
    requires { list_all argument_fits arguments.now ≡ true }
    ensures ok { IfOk result (λ found. gathered pieces_of arguments.now ≡ Some found) }
    ensures err { IfErr result (λ e. IsPartFault e (gathered pieces_of arguments.now)) }
{
    let mut pieces = Items::of(Vec::new(alloc));
    add_arguments(alloc, &mut pieces, arguments)?;
    Ok(pieces)
}

fn scalar(scalar: &Option<Numeral>) -> Option<i64>
    requires { scalar_fits scalar.now ≡ true }
    ensures { result ≡ scalar.now }
{
    match scalar {
        Some(number) => Some(number.value()),
        None => None,
    }
}

fn task(
    alloc: Global,
    kernel: &Word,
    number: &Option<Numeral>,
    arguments: &[Argument],
) -> Result<Statement, LineFault>
    requires scalar { scalar_fits number.now ≡ true }
    requires arguments { list_all argument_fits arguments.now ≡ true }
    ensures ok { IfOk result (λ x. option_map (Task kernel.now number.now) (gathered pieces_of arguments.now) ≡ Some x) }
    ensures err { IfErr result (λ e. IsPartFault e (gathered pieces_of arguments.now)) }
{
    let pieces = pieces(alloc, arguments)?;
    let kernel = name(alloc, kernel)?;
    Ok(Statement::Task {
        kernel,
        scalar: scalar(number),
        pieces,
    })
}

/// The statement that stands in the line.
#[tactic(auto, unfolding(crate::specs::Reads::meaning))]
pub(crate) fn statement(alloc: Global, written: &Written) -> Result<Statement, LineFault>
    requires { numbers_fit written.now ≡ true }
    ensures ok { IfOk result (λ x. meaning written.now ≡ Some x) }
    ensures err { IfErr result (λ e. IsPartFault e (meaning written.now)) }
{
    match written {
        Written::Space { name, limit } => space(alloc, name, limit),
        Written::Proc { name, space } => proc(alloc, name, space),
        Written::PolicyIs(policy) => Ok(Statement::PolicyIs(*policy)),
        Written::PlaceIs(rule) => Ok(Statement::PlaceIs(*rule)),
        Written::Array {
            name,
            rows,
            cols,
            brows,
            bcols,
            fill,
        } => {
            let name = self::name(alloc, name)?;
            Ok(Statement::Array {
                name,
                rows: rows.value(),
                cols: cols.value(),
                brows: brows.value(),
                bcols: bcols.value(),
                fill: fill.fill(),
            })
        }
        Written::Same { name, old } => same(alloc, name, old),
        Written::Drop(name) => drop_name(alloc, name),
        Written::MoveTo { name, space } => move_to(alloc, name, space),
        Written::Region => Ok(Statement::Region),
        Written::Task {
            kernel,
            scalar,
            arguments,
        } => task(alloc, kernel, scalar, arguments.as_slice()),
        Written::End => Ok(Statement::End),
        Written::Print(name) => print(alloc, name),
        Written::Sum(name) => sum(alloc, name),
        Written::Moved => Ok(Statement::Moved),
    }
}
