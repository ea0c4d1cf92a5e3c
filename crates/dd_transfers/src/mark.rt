//! The mark of an element: which spaces hold its current version.
ghost use Rattle.std.specs.Prelude.{◌≡◌, ◌^◌, ◌<◌, cond, length, map, sum_by};
ghost use Rattle.dd_transfers.specs.Marks.{IsMarked, IsMarkedVisit, has_space, mark_after, mark_of, moves_at, opened};

use dd_blocks::AccessRow;

/// Why a region comes to an element, with the number of a space, from 1.
#[derive(Clone, Copy, Debug)]
pub(crate) enum Visit {
    /// A task in the space reads it.
    Read(u32),
    /// A task in the space writes it.
    Write(u32),
    /// The region ends.
    Leave,
}

impl Visit {
    ghost use Rattle.dd_transfers.specs.Marks.{asks_home};
    ghost use Rattle.dd_transfers.specs.Visits.{is_of};

    /// Whether the visit comes to the elements of the access.
    pub(crate) fn is_of(self, access: &AccessRow) -> bool
        ensures { result ≡ is_of self access.now.mode }
    {
        match self {
            Visit::Read(_) => access.reads(),
            Visit::Write(_) => access.writes(),
            Visit::Leave => true,
        }
    }

    /// Whether the visit needs the element's home, to know what becomes of the mark.
    pub(crate) fn asks_home(self, mark: u8) -> bool
        ensures { result ≡ asks_home self mark }
    {
        match self {
            Visit::Read(_) => mark == 0,
            Visit::Write(_) => false,
            Visit::Leave => mark != 0,
        }
    }
}

/// What a visit makes of an element.
#[derive(Clone, Copy)]
pub(crate) struct Seen {
    pub mark: u8,
    /// How often it was moved.
    pub moved: u32,
}

/// A visit of elements with one home, by their marks: how many of them it moves.
pub(crate) fn visit_marks(marks: &mut [u8], home: u32, visit: Visit) -> u32
    requires few { length marks.old < 2 ^ 32 }
    requires home { IsMarked home }
    requires visit { IsMarkedVisit visit }
    ensures marks { marks.new ≡ map (mark_after visit home) marks.old }
    ensures moved { result ≡ sum_by (moves_at visit home) marks.old }
{
    match visit {
        Visit::Read(space) => read_marks(marks, home, space),
        Visit::Write(space) => {
            marks.fill(mark_of(space));
            0
        }
        Visit::Leave => leave_marks(marks, home),
    }
}

/// A task in a space reads elements with one home. The loop has no choice between visits in it, so that it goes over
/// many marks at once.
fn read_marks(marks: &mut [u8], home: u32, space: u32) -> u32
    requires few { length marks.old < 2 ^ 32 }
    requires home { IsMarked home }
    requires space { IsMarked space }
    ensures marks { marks.new ≡ map (mark_after (Visit.Read space) home) marks.old }
    ensures moved { result ≡ sum_by (moves_at (Visit.Read space) home) marks.old }
{
    let mut moved = 0;
    for mark in marks.iter_mut() {
        let seen = read(*mark, home, space);
        *mark = seen.mark;
        moved += seen.moved;
    }
    moved
}

/// The region ends for elements with one home.
fn leave_marks(marks: &mut [u8], home: u32) -> u32
    requires few { length marks.old < 2 ^ 32 }
    requires home { IsMarked home }
    ensures marks { marks.new ≡ map (mark_after Visit.Leave home) marks.old }
    ensures moved { result ≡ sum_by (moves_at Visit.Leave home) marks.old }
{
    let mut moved = 0;
    for mark in marks.iter_mut() {
        let seen = leave(*mark, home);
        *mark = seen.mark;
        moved += seen.moved;
    }
    moved
}

/// A visit of an element by its mark and its home.
pub(crate) fn after_visit(mark: u8, home: u32, visit: Visit) -> Seen
    requires home { IsMarked home }
    requires visit { IsMarkedVisit visit }
    ensures mark { result.mark ≡ mark_after visit home mark }
    ensures moved { result.moved ≡ moves_at visit home mark }
{
    match visit {
        Visit::Read(space) => read(mark, home, space),
        Visit::Write(space) => Seen {
            mark: mark_of(space),
            moved: 0,
        },
        Visit::Leave => leave(mark, home),
    }
}

/// A task in a space reads an element.
fn read(mark: u8, home: u32, space: u32) -> Seen
    requires home { IsMarked home }
    requires space { IsMarked space }
    ensures mark { result.mark ≡ mark_after (Visit.Read space) home mark }
    ensures moved { result.moved ≡ moves_at (Visit.Read space) home mark }
{
    let opened = opened(mark, home);
    Seen {
        mark: opened | mark_of(space),
        moved: missing(opened, space),
    }
}

/// The region ends for an element.
fn leave(mark: u8, home: u32) -> Seen
    requires { IsMarked home }
    ensures mark { result.mark ≡ mark_after Visit.Leave home mark }
    ensures moved { result.moved ≡ moves_at Visit.Leave home mark }
{
    Seen {
        mark: 0,
        moved: missing(opened(mark, home), home),
    }
}

/// The mark of an element once the region has come to it.
fn opened(mark: u8, home: u32) -> u8
    requires { IsMarked home }
    ensures { result ≡ opened home mark }
{
    if mark == 0 { mark_of(home) } else { mark }
}

/// The mark that has the bit of one space.
fn mark_of(space: u32) -> u8
    requires { IsMarked space }
    ensures { result ≡ mark_of space }
{
    1 << (space - 1)
}

/// 1 where the space does not hold the element, and 0 where it does.
fn missing(mark: u8, space: u32) -> u32
    requires { IsMarked space }
    ensures { result ≡ cond (has_space mark space) 0 1 }
{
    if mark & mark_of(space) == 0 { 1 } else { 0 }
}
