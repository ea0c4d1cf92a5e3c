//! What a line says.

ghost use Rattle.std.specs.Prelude.{◌≡◌, ◌≢◌, ◌<◌, length, IfOk, IfErr, IfSome};
ghost use Rattle.std.specs.List.{AllByRecursion};
ghost use Rattle.dd_tokens.specs.declared.fault.LineFault.TheVariants.{Memory};
ghost use Rattle.dd_tokens.specs.TokenIn.{IsTokenIn};
ghost use Rattle.dd_tokens.specs.Tokens.{AreTokensOf};
ghost use Rattle.dd_tokens.specs.Lexeme.{lexemes_of};
ghost use Rattle.dd_script.specs.Answers.{IsOnlyLineFaultOf, IsOnlyReadingOf};
ghost use Rattle.dd_script.specs.Spelling.{spelling};
ghost use Rattle.dd_script.specs.Reads.{SayStatement, Reads, IsFormFault, IsStatementFault};
ghost use Rattle.dd_script.specs.Short.{IsShort};

use crate::form::form_by;
use crate::keyword::keyword_of;
use crate::meaning::statement;
use crate::numbers::numbers_fit;
use crate::statement::Statement;
use crate::word::word_at;
use crate::written::Written;
use dd_tokens::{LineFault, Token};
use std::alloc::Global;

/// The statement as it stands in the line.
fn form_of<'a>(alloc: Global, line: &'a [u8], tokens: &[Token]) -> Result<Written<'a>, LineFault>
    requires inside { AllByRecursion (IsTokenIn line.now) tokens.now }
    requires some { 0 < length tokens.now }
    ensures form { IfOk result (λ form. lexemes_of line.now tokens.now ≡ spelling form) }
    ensures fault { IfErr result (λ e. IsFormFault e (lexemes_of line.now tokens.now)) }
{
    let Some((head, rest)) = word_at(line, tokens) else {
        return Err(LineFault::BadForm);
    };
    let Some(keyword) = keyword_of(head.as_bytes()) else {
        return Err(LineFault::UnknownStatement);
    };
    match form_by(alloc, keyword, line, rest)? {
        Some(written) => Ok(written),
        None => Err(LineFault::BadForm),
    }
}

/// The statement of tokens that are some.
fn statement_by(alloc: Global, line: &[u8], tokens: &[Token]) -> Result<Statement, LineFault>
    requires inside { AllByRecursion (IsTokenIn line.now) tokens.now }
    requires some { 0 < length tokens.now }
    ensures say { IfOk result (λ x. SayStatement (lexemes_of line.now tokens.now) x) }
    ensures fault { IfErr result (λ e. IsStatementFault e (lexemes_of line.now tokens.now)) }
{
    let written = form_of(alloc, line, tokens)?;
    if numbers_fit(&written) {
        statement(alloc, &written)
    } else {
        Err(LineFault::BadNumber)
    }
}

/// Reads the statement of a line from its tokens; `None` where it has none.
///
/// # Errors
/// `BadForm`, `UnknownStatement`, `BadNumber` and `UnknownPart`, the first of them that holds in this order; want
/// of memory.
pub fn statement_of(
    alloc: Global,
    line: &[u8],
    tokens: &[Token],
) -> Result<Option<Statement>, LineFault>
    requires { AreTokensOf line.now tokens.now }
    ensures reads { IfOk result (λ x. Reads line.now x) }

    // The line says nothing else, and has no fault.
    ensures only { IfOk result (IsOnlyReadingOf line.now) }
    ensures short { IfOk result (λ x. IfSome x IsShort) }
    ensures fault { IfErr result (λ e. IsStatementFault e (lexemes_of line.now tokens.now)) }

    // The line has no other fault, and says nothing.
    ensures only_fault { IfErr result (λ e. e ≢ Memory → IsOnlyLineFaultOf line.now e) }
{
    if tokens.is_empty() {
        return Ok(None);
    }
    Ok(Some(statement_by(alloc, line, tokens)?))
}
