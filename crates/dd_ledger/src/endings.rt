//! The endings that an event adds.
ghost use Rattle.std.specs.Prelude.{◌≡◌};
ghost use Rattle.dd_ledger.specs.Endings.{opens};

use dd_machine::Event;

/// How many endings an event may add.
pub(crate) fn opens(event: Event) -> usize
    ensures { result ≡ opens event }
{
    match event {
        Event::Ask { .. }
        | Event::Put { .. }
        | Event::Begin { .. }
        | Event::Make { .. }
        | Event::Claim { .. } => 1,
        _ => 0,
    }
}
