use crate::argument::Argument;
use crate::filling::Filling;
use crate::numeral::Numeral;
use crate::word::Word;
use dd_blocks::{Policy, Rule};
use dd_views::Items;

/// A statement as it stands in its line: its numbers may be of any size, and the words of its arguments any words.
#[derive(Drop)]
pub(crate) enum Written<'a> {
    Space {
        name: Word<'a>,
        limit: Numeral<'a>,
    },
    Proc {
        name: Word<'a>,
        space: Word<'a>,
    },
    PolicyIs(Policy),
    PlaceIs(Rule),
    Array {
        name: Word<'a>,
        rows: Numeral<'a>,
        cols: Numeral<'a>,
        brows: Numeral<'a>,
        bcols: Numeral<'a>,
        fill: Filling<'a>,
    },
    Same {
        name: Word<'a>,
        old: Word<'a>,
    },
    Drop(Word<'a>),
    MoveTo {
        name: Word<'a>,
        space: Word<'a>,
    },
    Region,
    Task {
        kernel: Word<'a>,
        scalar: Option<Numeral<'a>>,
        arguments: Items<Argument<'a>>,
    },
    End,
    Print(Word<'a>),
    Sum(Word<'a>),
    Moved,
}
