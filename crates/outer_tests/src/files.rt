// Real files, for cases in which the program's command lines don't show what a store leaves.
use crate::place::{LONG, OLD, SHORT, is, place_of_one};
use outer_io::{FileShelf, Shelf, ShelfFault};
use std::fs;
use std::fs::Permissions;
use std::os::unix::fs::{MetadataExt, PermissionsExt, chown, symlink};
use std::test::Fail;

/// Whether a store of the bytes succeeds, and the file then has exactly these bytes.
fn stores(rt: &HostRuntime, name: &str, bytes: &[u8]) -> bool {
    FileShelf::new(rt).store(name, bytes).is_ok() && is(&fs::read(rt, name).ok(), Some(bytes))
}

/// Whether a store fails.
fn is_not_stored(rt: &HostRuntime, name: &str) -> bool {
    matches!(
        FileShelf::new(rt).store(name, SHORT),
        Err(ShelfFault::Failed)
    )
}

#[test]
fn a_store_keeps_the_mode_and_the_owner(rt: HostRuntime) -> Result<(), Fail> {
    let place = place_of_one("outer_io_mode", "outer_io_mode/k.c");
    place.make(&rt)?;
    // Only root may give a file away.
    let _ = chown(&rt, place.file, Some(65_533), Some(65_532));
    fs::set_permissions(&rt, place.file, Permissions::from_mode(0o4751))?;
    let old = fs::metadata(&rt, place.file)?;
    assert!(rt; stores(&rt, place.file, LONG));
    let new = fs::metadata(&rt, place.file)?;
    assert_eq!(rt; new.mode() & 0o7777, 0o4751);
    assert_eq!(rt; (new.uid(), new.gid()), (old.uid(), old.gid()));
    assert_ne!(rt; new.ino(), old.ino(), "it is a new file");
    place.take(&rt)?;
    Ok(())
}

#[test]
fn what_a_link_leads_to_is_made(rt: HostRuntime) -> Result<(), Fail> {
    let (link, made, other) = ("outer_io_link", "outer_io_made", "outer_io_other");
    symlink(&rt, made, link)?;
    assert!(rt; stores(&rt, link, SHORT));
    fs::write(&rt, other, SHORT)?;
    assert_eq!(rt;
        fs::symlink_metadata(&rt, made)?.mode(),
        fs::metadata(&rt, other)?.mode()
    );
    for name in [link, made, other] {
        fs::remove_file(&rt, name)?;
    }
    Ok(())
}

#[test]
fn what_is_no_file_is_refused(rt: HostRuntime) -> Result<(), Fail> {
    let (folder, circle, plain) = ("outer_io_folder", "outer_io_circle", "outer_io_plain");
    fs::create_dir(&rt, folder)?;
    symlink(&rt, circle, circle)?;
    fs::write(&rt, plain, OLD)?;
    for name in [
        folder,
        circle,
        "",
        "outer_io_missing/k.c",
        "outer_io_plain/k.c",
        "outer_io_plain/",
        "/dev/full",
    ] {
        assert!(rt; is_not_stored(&rt, name), "{name}");
    }
    fs::remove_file(&rt, plain)?;
    fs::remove_file(&rt, circle)?;
    fs::remove_dir(&rt, folder)?;
    Ok(())
}
