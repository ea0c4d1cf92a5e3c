ghost use Rattle.std.specs.Prelude.{◌≡◌, IfOk};

use dd_store::{MemStore, NeverFails, Slot, Store, StoreFault, append_values, encode, read_values};
use std::alloc::{AllocError, Global};
use std::process::Abort;
use std::test::Fail;

const DISK: Option<StoreFault> = Some(StoreFault::Disk);

// A store whose calls with these numbers fail. No call has the number 0.
fn failing(alloc: Global, make: u32, append: u32, read: u32) -> Result<MemStore, AllocError>
    ensures { IfOk result (λ store. store.made ≡ 0) }
{
    let makes = [make].to_vec(alloc)?;
    let appends = [append].to_vec(alloc)?;
    let reads = [read].to_vec(alloc)?;
    Ok(MemStore::new(alloc, makes, appends, reads))
}

// Each row: which `make` fails, what each answers, and then how many slots were made and how many faults were counted.
#[test]
fn one_make_fails(rt: HostRuntime) -> Result<(), Fail> {
    for (failing_make, rows) in [
        (1, [(DISK, 0, 1), (None, 1, 1), (None, 2, 1)]),
        (2, [(None, 1, 0), (DISK, 1, 1), (None, 2, 1)]),
        (3, [(None, 1, 0), (None, 2, 0), (DISK, 2, 1)]),
    ] {
        let mut store = failing(rt.alloc(), failing_make, 0, 0)?;
        for (fault, made, faults) in rows {
            assert!(rt; store.made() < 9);
            assert_eq!(rt; store.make().err(), fault);
            assert_eq!(rt; store.made(), made);
            assert_eq!(rt; store.faults(), faults);
        }
    }
    Ok(())
}

#[test]
fn a_slot_gives_what_was_added(rt: HostRuntime) -> Result<(), Fail> {
    let mut bytes = Vec::new(rt.alloc());
    encode(&[1, -1], &mut bytes)?;
    let mut store = NeverFails::new(rt.alloc());
    let mut slot = store.make()?;
    slot.append(&bytes)?;
    assert_eq!(rt; bytes.len(), 16);
    let mut buf = [0; 8];
    slot.read(8, &mut buf)?;
    assert_eq!(rt; buf, [255; 8]);
    store.end(slot);
    assert_eq!(rt; store.made(), 1);
    Ok(())
}

// Two slots take turns. The call that fails is the one with that number over both.
#[test]
fn calls_are_numbered_over_all_slots(rt: HostRuntime) -> Result<(), Fail> {
    for failing_call in 1..=4u32 {
        let mut store = failing(rt.alloc(), 0, failing_call, failing_call)?;
        let mut first = store.make()?;
        let mut second = store.make()?;
        for call in 1..=4u32 {
            let fault = if call == failing_call { DISK } else { None };
            let answer = if call % 2 == 1 {
                first.append(b"abc")
            } else {
                second.append(b"abc")
            };
            assert_eq!(rt; answer.err(), fault, "append {call}");
        }
        for call in 1..=4u32 {
            let fault = if call == failing_call { DISK } else { None };
            let answer = if call % 2 == 1 {
                first.read(0, &mut [])
            } else {
                second.read(0, &mut [])
            };
            assert_eq!(rt; answer.err(), fault, "read {call}");
        }
        assert_eq!(rt; store.faults(), 0);
        store.end(first);
        store.end(second);
        assert_eq!(rt; store.faults(), 2);
    }
    Ok(())
}

// Values that went to a slot of a store and came back.
fn there_and_back(
    rt: &impl Abort,
    alloc: Global,
    store: &mut MemStore,
    values: &[i64],
) -> Result<Vec<i64>, StoreFault> {
    assert!(rt; store.made() == 0);
    let mut slot = store.make()?;
    append_values(alloc, &mut slot, values)?;
    assert!(rt; slot.bytes().len() / 8 >= values.len());
    read_values(alloc, &mut slot, values.len())
}

// Each row: how many values there are, and in how many pieces they go.
#[test]
fn values_go_in_pieces_of_512(rt: HostRuntime) -> Result<(), Fail> {
    for (count, pieces) in [
        (0u32, 0u32),
        (1, 1),
        (512, 1),
        (513, 2),
        (1024, 2),
        (1025, 3),
    ] {
        let values: Vec<i64> = (0..count)
            .map(|at| i64::from(at).wrapping_mul(-0x0123_4567_89AB_CDEF))
            .collect(rt.alloc())?;
        let last = if pieces > 0 { DISK } else { None };
        let mut store = failing(rt.alloc(), 0, pieces + 1, pieces + 1)?;
        let back = there_and_back(&rt, rt.alloc(), &mut store, &values)?;
        assert_eq!(rt; back.as_slice(), values.as_slice());
        let mut store = failing(rt.alloc(), 0, pieces, 0)?;
        assert_eq!(rt;
            there_and_back(&rt, rt.alloc(), &mut store, &values).err(),
            last
        );
        let mut store = failing(rt.alloc(), 0, 0, pieces)?;
        assert_eq!(rt;
            there_and_back(&rt, rt.alloc(), &mut store, &values).err(),
            last
        );
    }
    Ok(())
}
