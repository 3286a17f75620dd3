// What a crash leaves at each moment of a change, on a disk in memory.
use crate::{Disk, DiskFault, Folder, MemoryDisk, begin_file, replace_file};
use std::test::Fail;

const OLD: &[u8] = b"old";

const NEW: &[u8] = b"new text";

// Whether the project has these bytes after so many changes.
fn has(disk: &MemoryDisk, changes: usize, bytes: &[u8]) -> Result<bool, Fail> {
    let found = disk.read_after(changes, Folder::Project, "ana.project")?;
    Ok(found.is_some_and(|found| found.as_slice() == bytes))
}

#[test]
fn a_file_is_replaced_whole(rt: HostRuntime) -> Result<(), Fail> {
    let mut disk = MemoryDisk::new(rt.alloc());
    disk.write(Folder::Project, "ana.project", OLD)?;
    let before = disk.changes();
    replace_file(
        &mut disk,
        Folder::Project,
        "ana.project",
        "ana.project.new",
        NEW,
    )?;
    // At each moment it is the old one or the new one, and in the end the new one.
    for moment in before..disk.changes() {
        assert!(rt; has(&disk, moment, OLD)? || has(&disk, moment, NEW)?);
    }
    assert!(rt; has(&disk, disk.changes(), NEW)?);
    assert!(rt;
        disk.read(rt.alloc(), Folder::Project, "ana.project.new")?
            .is_none()
    );
    Ok(())
}

#[test]
fn a_file_is_begun_whole(rt: HostRuntime) -> Result<(), Fail> {
    let mut disk = MemoryDisk::new(rt.alloc());
    begin_file(
        &mut disk,
        Folder::Project,
        "ana.project",
        "ana.project.begun",
        NEW,
    )?;
    for moment in 0..disk.changes() {
        let found = disk.read_after(moment, Folder::Project, "ana.project")?;
        assert!(rt; found.is_none_or(|found| found.as_slice() == NEW));
    }
    assert!(rt; has(&disk, disk.changes(), NEW)?);
    assert!(rt;
        disk.read(rt.alloc(), Folder::Project, "ana.project.begun")?
            .is_none()
    );
    Ok(())
}

#[test]
fn a_file_that_is_there_is_not_begun(rt: HostRuntime) -> Result<(), Fail> {
    let mut disk = MemoryDisk::new(rt.alloc());
    disk.write(Folder::Project, "ana.project", OLD)?;
    let begun = begin_file(
        &mut disk,
        Folder::Project,
        "ana.project",
        "ana.project.begun",
        NEW,
    );
    assert!(rt; begun == Err(DiskFault::NameTaken));
    assert!(rt; has(&disk, disk.changes(), OLD)?);
    Ok(())
}

#[test]
fn the_folders_are_apart(rt: HostRuntime) -> Result<(), Fail> {
    let mut disk = MemoryDisk::new(rt.alloc());
    disk.write(Folder::Books, "MAT.usfm", OLD)?;
    disk.write(Folder::Own, "MAT.new", NEW)?;
    assert!(rt; disk.read(rt.alloc(), Folder::Box, "MAT.usfm")?.is_none());
    disk.rename(Folder::Own, "MAT.new", Folder::Books, "MAT.usfm")?;
    disk.sync_folder(Folder::Books)?;
    let book = disk.read(rt.alloc(), Folder::Books, "MAT.usfm")?;
    assert!(rt; book.is_some_and(|book| book.as_slice() == NEW));
    assert!(rt; disk.read(rt.alloc(), Folder::Own, "MAT.new")?.is_none());
    disk.link(Folder::Books, "MAT.usfm", Folder::Box, "MAT.usfm")?;
    disk.remove(Folder::Books, "MAT.usfm")?;
    assert!(rt; disk.read(rt.alloc(), Folder::Books, "MAT.usfm")?.is_none());
    assert!(rt; disk.read(rt.alloc(), Folder::Box, "MAT.usfm")?.is_some());
    Ok(())
}
