ghost use Rattle.std.specs.Prelude.{◌≡◌, ◌↔◌, Some};
ghost use Rattle.dd_script.specs.declared.keyword.Keyword.{Keyword};
ghost use Rattle.dd_script.specs.Keywords.{keyword_word};

/// The word that begins a statement.
#[derive(Clone, Copy)]
pub(crate) enum Keyword {
    Space,
    Proc,
    Policy,
    Place,
    Array,
    Same,
    Drop,
    Move,
    Region,
    Task,
    End,
    Print,
    Sum,
    Moved,
}

const KEYWORDS: [Keyword; 14] = [
    Keyword::Space,
    Keyword::Proc,
    Keyword::Policy,
    Keyword::Place,
    Keyword::Array,
    Keyword::Same,
    Keyword::Drop,
    Keyword::Move,
    Keyword::Region,
    Keyword::Task,
    Keyword::End,
    Keyword::Print,
    Keyword::Sum,
    Keyword::Moved,
];

/// The keyword that a word is, or `None` for another word.
pub(crate) fn keyword_of(word: &[u8]) -> Option<Keyword>
    ensures { (k : Keyword) → (result ≡ Some k) ↔ (word.now ≡ keyword_word k) }
{
    for k in KEYWORDS {
        if keyword_word(k) == word {
            return Some(k);
        }
    }
    None
}

fn keyword_word(k: Keyword) -> &'static [u8]
    ensures { result.now ≡ keyword_word k }
{
    match k {
        Keyword::Space => b"space",
        Keyword::Proc => b"proc",
        Keyword::Policy => b"policy",
        Keyword::Place => b"place",
        Keyword::Array => b"array",
        Keyword::Same => b"same",
        Keyword::Drop => b"drop",
        Keyword::Move => b"move",
        Keyword::Region => b"region",
        Keyword::Task => b"task",
        Keyword::End => b"end",
        Keyword::Print => b"print",
        Keyword::Sum => b"sum",
        Keyword::Moved => b"moved",
    }
}
