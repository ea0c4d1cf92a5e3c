use dd_store::{DirStore, Slot, Store, StoreFault};
use std::test::Fail;
use std::{env, fs, io, process};

const DISK: Option<StoreFault> = Some(StoreFault::Disk);

// The name of a folder for one test. It isn't there yet.
fn folder_for(rt: &HostRuntime, test: &str) -> io::Result<String> {
    let all = env::temp_dir(rt)?;
    let number = process::id(rt.process());
    let folder = format!(in rt.alloc(); "{}/ddeps-{test}-{number}", all.as_path().display())?;
    let _ = fs::remove_dir_all(rt, &folder);
    Ok(folder)
}

// What stands in a file of the folder.
fn content_of(rt: &HostRuntime, folder: &str, name: &str) -> io::Result<Vec<u8>> {
    let path = format!(in rt.alloc(); "{folder}/{name}")?;
    fs::read(rt, &path)
}

// How many files this process has open.
fn open_files(rt: &HostRuntime) -> io::Result<usize> {
    let mut count = 0usize;
    for entry in fs::read_dir(rt, "/proc/self/fd")? {
        entry?;
        count = count.saturating_add(1);
    }
    Ok(count)
}

#[test]
fn each_slot_is_a_file(rt: HostRuntime) -> Result<(), Fail> {
    let folder = folder_for(&rt, "slots")?;
    let mut store = DirStore::new(&rt, rt.alloc(), &folder)?;
    assert!(rt; !fs::exists(&rt, &folder)?);
    let open = open_files(&rt)?;
    let mut first = store.make()?;
    let mut second = store.make()?;
    first.append(b"abc")?;
    second.append(b"xy")?;
    first.append(b"de")?;
    let mut buf = [0; 3];
    first.read(1, &mut buf)?;
    assert_eq!(rt; buf, *b"bcd");
    assert_eq!(rt; open_files(&rt)?, open);
    assert_eq!(rt;
        content_of(&rt, &folder, "slot-0.bin")?.as_slice(),
        b"abcde".as_slice()
    );
    assert_eq!(rt;
        content_of(&rt, &folder, "slot-1.bin")?.as_slice(),
        b"xy".as_slice()
    );
    assert_eq!(rt; store.made(), 2);
    fs::remove_dir_all(&rt, &folder)?;
    Ok(())
}

#[test]
fn a_slot_begins_empty_and_ends_without_its_file(rt: HostRuntime) -> Result<(), Fail> {
    let folder = folder_for(&rt, "ends")?;
    fs::create_dir(&rt, &folder)?;
    fs::write(
        &rt,
        format!(in rt.alloc(); "{folder}/slot-0.bin")?,
        b"old".as_slice(),
    )?;
    fs::write(
        &rt,
        format!(in rt.alloc(); "{folder}/other")?,
        b"kept".as_slice(),
    )?;
    let mut store = DirStore::new(&rt, rt.alloc(), &folder)?;
    let slot = store.make()?;
    assert_eq!(rt;
        content_of(&rt, &folder, "slot-0.bin")?.as_slice(),
        b"".as_slice()
    );
    let gone = store.make()?;
    store.end(slot);
    fs::remove_file(&rt, format!(in rt.alloc(); "{folder}/slot-1.bin")?)?;
    store.end(gone);
    assert_eq!(rt; store.faults(), 0);
    assert_eq!(rt;
        content_of(&rt, &folder, "other")?.as_slice(),
        b"kept".as_slice()
    );
    fs::remove_file(&rt, format!(in rt.alloc(); "{folder}/other")?)?;
    fs::remove_dir(&rt, &folder)?;
    Ok(())
}

#[test]
fn a_short_file_and_one_that_is_gone_are_faults(rt: HostRuntime) -> Result<(), Fail> {
    let folder = folder_for(&rt, "faults")?;
    let mut store = DirStore::new(&rt, rt.alloc(), &folder)?;
    let mut slot = store.make()?;
    slot.append(b"abc")?;
    assert_eq!(rt; slot.read(1, &mut [0; 3]).err(), DISK);
    slot.read(1, &mut [0; 2])?;
    fs::remove_file(&rt, format!(in rt.alloc(); "{folder}/slot-0.bin")?)?;
    assert_eq!(rt; slot.read(0, &mut [0; 3]).err(), DISK);
    assert_eq!(rt; slot.append(b"def").err(), DISK);
    assert_eq!(rt; slot.faults(), 3);
    store.end(slot);
    assert_eq!(rt; store.faults(), 3);
    fs::remove_dir(&rt, &folder)?;
    Ok(())
}

#[test]
fn a_folder_that_cannot_be_made_is_a_fault(rt: HostRuntime) -> Result<(), Fail> {
    let folder = folder_for(&rt, "unmade")?;
    let deeper = format!(in rt.alloc(); "{folder}/deeper")?;
    let mut store = DirStore::new(&rt, rt.alloc(), &deeper)?;
    assert_eq!(rt; store.make().err(), DISK);
    fs::write(&rt, &folder, b"a file".as_slice())?;
    let mut other = DirStore::new(&rt, rt.alloc(), &folder)?;
    assert_eq!(rt; other.make().err(), DISK);
    assert_eq!(rt; store.made(), 0);
    assert_eq!(rt; store.faults(), 1);
    assert_eq!(rt; other.faults(), 1);
    fs::remove_file(&rt, &folder)?;
    Ok(())
}
