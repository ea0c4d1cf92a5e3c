ghost use Rattle.std.specs.Prelude.{◌≡◌, ℕ, List, [], ◌∷◌, ◌++◌, ◌↔◌, ◌⊎◌, codes, IsTrue, OnOk, OnErr};
ghost use Rattle.dd_session.specs.Words.{IsFound};

use std::alloc::{AllocError, Global};
use std::marker::Model;

/// What the program is asked to do.
#[derive(Clone, Copy, Debug, PartialEq, Eq)]
pub(crate) enum Command {
    /// To run a script over its spaces.
    Run,
    /// To run it on whole arrays.
    Plain,
}

/// The words of a command, after the program's name.
#[derive(Debug, Drop)]
pub struct CommandWords {
    words: Vec<String>,
}

impl Model for CommandWords {
    ghost use Rattle.std.specs.Prelude.{ℕ, List, map};
    ghost use Rattle.std.specs.String.{string_bytes};

    ghost Value = { List (List ℕ) };

    ghost view = { λ w. map string_bytes w.words.items };
}

impl CommandWords {
    /// No words.
    pub fn new(alloc: Global) -> CommandWords
        ensures { result ≡ [] }
    {
        CommandWords {
            words: Vec::new(alloc),
        }
    }

    /// Adds a word at the end.
    pub fn push(&mut self, word: &str) -> Result<(), AllocError>
        ensures ok { OnOk result (self.new ≡ self.old ++ word.now ∷ []) }
        ensures err { OnErr result (self.new ≡ self.old) }
    {
        let word = String::from_str(*self.words.allocator(), word)?;
        self.words.push(word)?;
        Ok(())
    }

    /// The command that they name: one word. None where they name none.
    pub(crate) fn command(&self) -> Option<Command>
        ensures { IsFound self.now result }
    {
        match self.words.as_slice() {
            [word] => command_named(word.as_str()),
            _ => None,
        }
    }
}

/// The command of a word.
fn command_named(word: &str) -> Option<Command>
    ensures { IsFound (word.now ∷ []) result }
{
    if word == "run" {
        Some(Command::Run)
    } else if word == "plain" {
        Some(Command::Plain)
    } else {
        None
    }
}
