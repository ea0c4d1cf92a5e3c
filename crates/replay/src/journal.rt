//! A journal as text: which of its lines are entries, and the event of each.
use arrayvec::ArrayVec;
use dd_core::Event;

/// How many numbers an event has at most.
const MOST_NUMBERS: usize = 4;

/// Whether a line is an entry, legal or not. The others are printed output, and pass unread.
pub fn is_entry(line: &[u8]) -> bool {
    line.starts_with(b"!")
}

/// The event of a line, which stands without its line feed: `! `, the event's word, and its numbers, each behind one space. None
/// where no event has exactly these bytes.
pub fn event_of(line: &[u8]) -> Option<Event> {
    let rest = line.strip_prefix(b"! ")?;
    let mut words = rest.split(|byte| *byte == b' ');
    let name = words.next()?;
    let mut numbers: ArrayVec<u64, MOST_NUMBERS> = ArrayVec::new();
    for word in words {
        numbers.try_push(number_of(word)?).ok()?;
    }
    match numbers.as_slice() {
        [] => event_of_none(name),
        [a] => event_of_one(name, small(*a)?),
        [a, b] => event_of_two(name, small(*a)?, small(*b)?),
        [a, b, c] => event_of_three(name, small(*a)?, small(*b)?, *c),
        [a, b, c, d] => event_of_four(name, small(*a)?, small(*b)?, small(*c)?, *d),
        _ => None,
    }
}

/// The number of a word: `0`, or decimal digits of which the first is none. None for any other word, and for a number that is
/// out of range.
fn number_of(word: &[u8]) -> Option<u64> {
    match word {
        b"0" => Some(0),
        [b'1'..=b'9', ..] => str::from_utf8(word).ok()?.parse().ok(),
        _ => None,
    }
}

/// A number that is one of a space, a block, a task, a worker or a region.
fn small(number: u64) -> Option<u32> {
    u32::try_from(number).ok()
}

fn event_of_none(name: &[u8]) -> Option<Event> {
    match name {
        b"rest" => Some(Event::Rest),
        _ => None,
    }
}

fn event_of_one(name: &[u8], a: u32) -> Option<Event> {
    match name {
        b"put" => Some(Event::Put { block: a }),
        b"begin" => Some(Event::Begin { region: a }),
        b"hold" => Some(Event::Hold { task: a }),
        b"finish" => Some(Event::Finish { task: a }),
        b"close" => Some(Event::Close { region: a }),
        _ => None,
    }
}

fn event_of_two(name: &[u8], a: u32, b: u32) -> Option<Event> {
    match name {
        b"ask" => Some(Event::Ask { space: a, block: b }),
        b"shift" => Some(Event::Shift { block: a, space: b }),
        b"free" => Some(Event::Free { space: a, block: b }),
        b"pick" => Some(Event::Pick { space: a, block: b }),
        b"gone" => Some(Event::Gone { space: a, block: b }),
        b"make" => Some(Event::Make { task: a, block: b }),
        b"call" => Some(Event::Call { space: a, block: b }),
        b"come" => Some(Event::Come { space: a, block: b }),
        b"claim" => Some(Event::Claim { task: a, worker: b }),
        _ => None,
    }
}

fn event_of_three(name: &[u8], a: u32, b: u32, c: u64) -> Option<Event> {
    match name {
        b"lend" => Some(Event::Lend {
            task: a,
            block: b,
            source: small(c)?,
        }),
        b"back" => Some(Event::Back {
            block: a,
            source: b,
            count: c,
        }),
        _ => None,
    }
}

fn event_of_four(name: &[u8], a: u32, b: u32, c: u32, d: u64) -> Option<Event> {
    match name {
        b"copy" => Some(Event::Copy {
            task: a,
            block: b,
            source: c,
            count: d,
        }),
        _ => None,
    }
}
