// Files that fail, and what tells how far it came.

use sect_edge::{Failed, KeepFault, Keeper, MemKeeper, MemSource, Source};
use sect_journal::{Disk, DiskFault};
use sect_system::{FileDisk, ToldKeeper, ToldSource};
use std::alloc::Global;
use std::fs::{self, File};
use std::io;
use std::process::Abort;

#[test]
fn a_file_that_is_only_read_fails_to_be_written(rt: HostRuntime) -> io::Result<()> {
    let path = "sect_system_only_read";
    File::create(&rt, path)?;
    let mut disk = FileDisk::new(File::open(&rt, path)?);
    assert!(rt; disk.write_at(0, b"abcd") == Err(DiskFault::Failed));
    assert!(rt; disk.size() == Ok(0));
    fs::remove_file(&rt, path)
}

#[test]
fn no_byte_stands_past_the_bound(rt: HostRuntime) -> io::Result<()> {
    let path = "sect_system_bound";
    let mut disk = FileDisk::open(&rt, path)?;
    assert!(rt; disk.write_at((1 << 62) - 1, b"a") == Err(DiskFault::Failed));
    assert!(rt; disk.size() == Ok(0));
    fs::remove_file(&rt, path)
}

#[test]
fn a_source_that_is_told_reads_as_the_one_behind_it(rt: HostRuntime) -> io::Result<()> {
    let alloc = rt.alloc();
    let mut fail = Vec::new(alloc);
    fail.push(2)?;
    let mut source = ToldSource::new(rt, MemSource::new(b"abc".to_vec(alloc)?, 2, fail), true);
    let mut into = [0; 8];
    assert!(rt; source.read(&mut into) == Ok(2));
    assert!(rt; source.read(&mut into) == Err(Failed));
    assert!(rt; source.read(&mut into) == Ok(1));
    assert!(rt; source.read(&mut into) == Ok(0));
    source.end();
    Ok(())
}

#[test]
fn a_keeper_that_is_told_keeps_as_the_one_behind_it(rt: HostRuntime) -> io::Result<()> {
    let alloc = rt.alloc();
    let mut fail = Vec::new(alloc);
    fail.push(2)?;
    let mut keeper = ToldKeeper::new(rt, MemKeeper::new(Vec::new(alloc), fail));
    append_one_of_two(&rt, &mut keeper);
    read_one(&rt, alloc, &mut keeper);
    assert!(rt; keeper.into_keeper().rows().len() == 1);
    Ok(())
}

/// Appends a row, and one that fails.
fn append_one_of_two<K: Keeper>(rt: &impl Abort, keeper: &mut K) {
    assert!(rt; keeper.append(b"ab") == Ok(()));
    assert!(rt; keeper.append(b"cd") == Err(KeepFault::Failed));
}

/// Reads the one row.
fn read_one<K: Keeper>(rt: &impl Abort, alloc: Global, keeper: &mut K) {
    let mut row = Vec::new(alloc);
    assert!(rt; keeper.len() == Ok(1));
    assert!(rt; keeper.row(0, &mut row) == Ok(true));
    assert!(rt; row.as_slice() == b"ab".as_slice());
    assert!(rt; keeper.row(1, &mut row) == Ok(false));
}
