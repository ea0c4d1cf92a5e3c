//! A slot that lies: versions come back as they left, values are the slot's, and no claim of truth stands.
ghost use Rattle.std.specs.Prelude.{◌≡◌, true, false, []};

use crate::copies::{BLANK, check_versions, copy_that_takes};
use crate::plans::{ONE_BLOCK, plan_of};
use dd_pool::spill;
use dd_stamps::Stamped;
use dd_store::{Slot, StoreFault};
use std::alloc::Global;
use std::process::Abort;

// A slot that forgets what is added, and reads ones.
#[derive(Drop)]
struct LyingSlot;

impl Slot for LyingSlot {
    ghost tells = { false };

    ghost content = { λ _. [] };

    ghost faults = { λ _. 0 };

    fn append(&mut self, _bytes: &[u8]) -> Result<(), StoreFault> {
        Ok(())
    }

    fn read(&mut self, _place: u64, buf: &mut [u8]) -> Result<(), StoreFault> {
        buf.fill(1);
        Ok(())
    }
}

// What comes back of a copy whose mark is true. It is a clause that no claim of truth stands.
fn lied<'p>(rt: &impl Abort, alloc: Global, copy: Stamped<'p>) -> Stamped<'p>
    requires { copy.told.mark ≡ true }
    ensures { result.told.mark ≡ false }
{
    let Ok(mut out) = spill(alloc, copy, LyingSlot) else {
        panic!(rt; "not spilled")
    };
    out.recall().expect(rt, "recalled")
}

#[test]
fn a_slot_that_lies_is_not_believed(rt: HostRuntime) {
    let plan = plan_of(&rt, rt.alloc(), ONE_BLOCK);
    let copy = copy_that_takes(&rt, rt.alloc(), &plan, &[1, 2]);
    let back = lied(&rt, rt.alloc(), copy);
    assert_eq!(rt; back.values(), [0x0101010101010101; 4].as_slice());
    check_versions(&rt, &back, &[BLANK, 0, 0, BLANK]);
}
