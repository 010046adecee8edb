// Stores in which each call fails in turn, and stores on a full disk.
use crate::failing_files::{FailingFiles, Trouble};
use crate::place::{LONG, OLD, Place, SHORT, is, place_of_one, place_of_two};
use outer_io::{FileShelf, Shelf, ShelfFault};
use std::fs;
use std::fs::Permissions;
use std::io::ErrorKind;
use std::os::unix::fs::{MetadataExt, PermissionsExt};
use std::test::Fail;

/// How a store ended, and what the file has then.
#[derive(Drop)]
struct Stored {
    is_done: bool,
    bytes: Option<Vec<u8>>,
}

/// Stores under the given trouble. A store that succeeds must be synced.
fn store_in(
    rt: &HostRuntime,
    place: &Place,
    new: &[u8],
    trouble: &Trouble,
) -> Result<Stored, Fail> {
    place.make(rt)?;
    let files = (FailingFiles { rt, trouble }, rt.alloc());
    let end = FileShelf::new(&files).store(place.name(), new);
    let bytes = place.take(rt)?;
    match end {
        Ok(()) if !trouble.is_synced() => Err(Fail::from("what was done is not synced")),
        Ok(()) => Ok(Stored {
            is_done: true,
            bytes,
        }),
        Err(ShelfFault::Failed) => Ok(Stored {
            is_done: false,
            bytes,
        }),
        Err(_) => Err(Fail::from("another fault")),
    }
}

/// Stores once for each call, which then fails. The file must have the new bytes if the store succeeds, and its old content
/// otherwise. Returns for how many failing calls the store still succeeded.
fn done_all_the_same(
    rt: &HostRuntime,
    place: &Place,
    new: &[u8],
    kind: ErrorKind,
) -> Result<u32, Fail> {
    let old = if place.is_there { Some(OLD) } else { None };
    let mut done = 0u32;
    for number in 0..100 {
        let trouble = Trouble::at_call(number, kind);
        let stored = store_in(rt, place, new, &trouble)?;
        let wanted = if stored.is_done { Some(new) } else { old };
        if !is(&stored.bytes, wanted) {
            return Err(Fail::from("other bytes stand there"));
        }
        if !trouble.is_past() {
            return if stored.is_done {
                Ok(done)
            } else {
                Err(Fail::from("no call failed"))
            };
        }
        done = done.saturating_add(u32::from(stored.is_done));
    }
    Err(Fail::from("more calls than a store makes"))
}

#[test]
fn a_store_of_which_a_call_fails_loses_nothing(rt: HostRuntime) -> Result<(), Fail> {
    let one = place_of_one("outer_io_one", "outer_io_one/k.c");
    let linked = Place {
        link: Some("outer_io_one/link.c"),
        ..one
    };
    // The owner may differ; if it isn't known whether the name may be removed, the file is overwritten; a store needn't
    // wait for its turn in the folder, nor know what is there then.
    for place in [one, linked] {
        for new in [LONG, SHORT] {
            let done = done_all_the_same(&rt, &place, new, ErrorKind::Other)?;
            assert_eq!(rt; done, 4);
            // If a new file, its mode or its name isn't allowed, the old file is overwritten.
            let done = done_all_the_same(&rt, &place, new, ErrorKind::PermissionDenied)?;
            assert_eq!(rt; done, 7);
        }
    }
    let made = Place {
        is_there: false,
        ..one
    };
    for kind in [ErrorKind::Other, ErrorKind::PermissionDenied] {
        assert_eq!(rt; done_all_the_same(&rt, &made, LONG, kind)?, 2);
    }
    // Each of seven writes is repeated when it is interrupted.
    assert_eq!(rt;
        done_all_the_same(&rt, &one, LONG, ErrorKind::Interrupted)?,
        4 + 7
    );
    Ok(())
}

#[test]
fn without_its_owner_a_new_file_runs_as_who_runs_it(rt: HostRuntime) -> Result<(), Fail> {
    let place = place_of_one("outer_io_runs", "outer_io_runs/k.c");
    let mut without = 0u32;
    for number in 0..100 {
        place.make(&rt)?;
        fs::set_permissions(&rt, place.file, Permissions::from_mode(0o6751))?;
        let trouble = Trouble::at_call(number, ErrorKind::Other);
        let files = (
            FailingFiles {
                rt: &rt,
                trouble: &trouble,
            },
            rt.alloc(),
        );
        let is_done = FileShelf::new(&files).store(place.file, SHORT).is_ok();
        let mode = fs::metadata(&rt, place.file)?.mode() & 0o7777;
        place.take(&rt)?;
        if mode != 0o6751 {
            assert!(rt; mode == 0o0751 && is_done, "call {number}");
            without = without.saturating_add(1);
        }
        if !trouble.is_past() {
            break;
        }
    }
    // Unless root overwrites a file, it loses these mode bits too.
    assert!(rt; without == 1 || without == 2);
    Ok(())
}

#[test]
fn a_file_of_two_names_is_written_over(rt: HostRuntime) -> Result<(), Fail> {
    let place = place_of_two("outer_io_both", "outer_io_both/k.c", "outer_io_both/l.c");
    // The bytes that were overwritten before a call failed are restored.
    for new in [LONG, SHORT] {
        assert_eq!(rt; done_all_the_same(&rt, &place, new, ErrorKind::Other)?, 1);
    }
    Ok(())
}

#[test]
fn a_store_on_a_full_disk_loses_nothing(rt: HostRuntime) -> Result<(), Fail> {
    let one = place_of_one("outer_io_full", "outer_io_full/k.c");
    for room in 0..LONG.len() {
        let stored = store_in(&rt, &one, LONG, &Trouble::little_room(room))?;
        assert!(rt;
            !stored.is_done && is(&stored.bytes, Some(OLD)),
            "room for {room}"
        );
    }
    let two = place_of_two(
        "outer_io_filled",
        "outer_io_filled/k.c",
        "outer_io_filled/l.c",
    );
    for room in 0..LONG.len() - OLD.len() {
        let stored = store_in(&rt, &two, LONG, &Trouble::little_room(room))?;
        assert!(rt;
            !stored.is_done && is(&stored.bytes, Some(OLD)),
            "room for {room}"
        );
    }
    Ok(())
}
