//! The first Pick of a journal.
ghost use Rattle.std.specs.Prelude.{◌≡◌};
ghost use Rattle.dd_ledger.specs.Picks.{is_before, or_first};
ghost use Rattle.dd_machine.specs.Runs.{is_pick};

use dd_machine::Event;

/// How many entries stand before the first Pick, with one entry more behind so many.
pub(crate) fn or_first(first: Option<usize>, before: usize, event: Event) -> Option<usize>
    ensures { result ≡ or_first first before (is_pick event) }
{
    match (first, event) {
        (None, Event::Pick { .. }) => Some(before),
        _ => first,
    }
}

/// Whether so many entries reach as far as the first Pick.
pub(crate) fn is_before(first: Option<usize>, number: usize) -> bool
    ensures { result ≡ is_before first number }
{
    match first {
        Some(before) => before < number,
        None => false,
    }
}
