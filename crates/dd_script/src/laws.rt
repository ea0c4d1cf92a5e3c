//! Laws over the definitions of this crate. Each is a function without arguments whose contract is the law.

ghost use Rattle.std.specs.Prelude.{ℕ, List, Option};
ghost use Rattle.dd_tokens.specs.declared.fault.LineFault.{LineFault};
ghost use Rattle.dd_script.specs.declared.statement.Statement.{Statement};
ghost use Rattle.dd_script.specs.Answers.{IsLineFault, IsOnlyLineFaultOf, IsOnlyReadingOf};
ghost use Rattle.dd_script.specs.Reads.{Reads};

/// A line says one thing at most: what says something says nothing else and has no fault, and what has a fault has no
/// other. Want of memory is no fault of a line.
pub fn one_answer()
    ensures reading { (line : List ℕ) (x : Option Statement) → Reads line x → IsOnlyReadingOf line x }
    ensures fault { (line : List ℕ) (fault : LineFault) → IsLineFault fault line → IsOnlyLineFaultOf line fault }
{}
