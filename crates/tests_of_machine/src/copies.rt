//! Copies of blocks that come, move and leave.
ghost use Rattle.dd_copies.specs.CopyTables.{IsTable};
ghost use Rattle.dd_machine.specs.Words.{IsOneOf};

use dd_copies::{BlockCopy, Copies};
use dd_machine::CopyState;
use std::process::Abort;
use std::test::Fail;

/// Puts a copy into a table of two spaces and three blocks.
fn put(copies: &mut Copies, space: u32, block: u32, copy: BlockCopy)
    requires table { IsTable 2 3 copies.old }
    requires space { IsOneOf 2 space }
    requires block { IsOneOf 3 block }
    ensures { IsTable 2 3 copies.new }
{
    copies.put(space, block, Some(copy));
}

/// Where the copy of each block is, first those of the first space.
fn are_in(rt: &impl Abort, copies: &Copies, wanted: &[Option<CopyState>]) {
    let found = [
        copies.state(1, 1),
        copies.state(1, 2),
        copies.state(1, 3),
        copies.state(2, 1),
        copies.state(2, 2),
        copies.state(2, 3),
    ];
    assert_eq!(rt; found.as_slice(), wanted);
}

#[test]
fn copies_come_and_stay_where_they_are_put(rt: HostRuntime) -> Result<(), Fail> {
    let mut copies = Copies::new(rt.alloc(), 2, 3)?;
    are_in(&rt, &copies, &[None, None, None, None, None, None]);
    put(&mut copies, 1, 2, BlockCopy::new(rt.alloc(), 4, 7)?);
    let here = Some(CopyState::Here);
    are_in(&rt, &copies, &[None, here, None, None, None, None]);
    assert_eq!(rt; copies.version(1, 2, 3), 7);
    assert_eq!(rt; copies.version(1, 2, 4), 0);
    assert!(rt; copies.is_absent(2, 2));
    assert!(rt; copies.is_absent(3, 2));
    Ok(())
}
