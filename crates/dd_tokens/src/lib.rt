//! The tokens of one line of a script: words, numbers and marks, each with its place.
//!
//! ```text
//! tokens(alloc, b"V[1,4:-1:1] # a view")
//! ```
//!
//! gives ten tokens: the word `V`, the mark `[`, the number `1` and so on to the mark `]`. `text` gives the
//! bytes of a token, and `number` the value of a number. What the tokens mean is for the reader of statements
//! above: here a word is a word.
//!
//! Each byte before the comment is looked at a few times, and those behind the `#` never. A line without tokens
//! takes no memory.
//!
//! Inside, `byte` has the classes of bytes, `comment` finds the part before the comment, `front` finds the token
//! at the front of some bytes, and `cut` goes from one token to the next. A line has one list of tokens at most,
//! its longest pieces with blanks between them (`laws`), so `tokens` has no choice.
#![tactic(auto)]

mod byte;
mod comment;
mod cut;
mod fault;
mod front;
pub mod laws;
mod lexeme;
mod token;

pub use cut::tokens;
pub use fault::LineFault;
pub use lexeme::{number, text};
pub use token::{Token, TokenKind};
