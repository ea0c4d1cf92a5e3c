//! Laws over the definitions of this crate. Each is a function without arguments whose contract is the law.

ghost use Rattle.std.specs.Prelude.{◌≡◌, ◌↔◌, ℕ, List};
ghost use Rattle.dd_tokens.specs.declared.token.Token.{Token};
ghost use Rattle.dd_tokens.specs.Cutting.{IsCuttingOf};
ghost use Rattle.dd_tokens.specs.Tokens.{AreTokensOf};

/// A line has one list of tokens at most.
pub fn one_cutting()
    ensures { (line : List ℕ) (ts us : List Token) → AreTokensOf line ts → AreTokensOf line us → ts ≡ us }
{}

/// The tokens of a line are those pieces of it, each of its kind, one behind the other, with nothing but blanks outside
/// them, that no byte behind one makes longer.
pub fn longest_pieces()
    ensures { (line : List ℕ) (ts : List Token) → AreTokensOf line ts ↔ IsCuttingOf line ts }
{}
