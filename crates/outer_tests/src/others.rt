// Files that others change between a load and a store.
use crate::place::{LONG, OLD, Place, SHORT, is, place_of_one};
use outer_io::{FileShelf, Loads, Shelf, ShelfFault};
use std::fs;
use std::fs::File;
use std::os::unix::fs::symlink;
use std::test::Fail;

const OTHER: &[u8] = b"the bytes of others";

/// What others do to a file.
#[derive(Clone, Copy)]
enum Deed {
    WritesOver,
    Replaces,
    Links,
    Removes,
    Locks,
}

impl Deed {
    fn is_done_to(self, rt: &HostRuntime, file: &str, other: &str) -> Result<(), Fail> {
        match self {
            Deed::WritesOver => fs::write(rt, file, OTHER)?,
            Deed::Replaces => {
                fs::write(rt, other, OTHER)?;
                fs::rename(rt, other, file)?;
            }
            Deed::Links => {
                fs::write(rt, other, OTHER)?;
                fs::remove_file(rt, file)?;
                symlink(rt, "other.c", file)?;
            }
            Deed::Removes => fs::remove_file(rt, file)?,
            Deed::Locks => {}
        }
        Ok(())
    }
}

/// Loads a file, lets others do something to it, and tries to store it. Returns what is there then.
fn left_after(rt: &HostRuntime, place: &Place, deed: Deed) -> Result<Option<Vec<u8>>, Fail> {
    let other = "outer_io_others/other.c";
    place.make(rt)?;
    let mut shelf = FileShelf::new(rt);
    if shelf.load(place.file, 100).is_err() {
        return Err(Fail::from("it was not loaded"));
    }
    deed.is_done_to(rt, place.file, other)?;
    let lock = File::open(rt, place.file);
    if let (Deed::Locks, Ok(file)) = (deed, &lock) {
        file.lock()?;
    }
    if !matches!(shelf.store(place.file, SHORT), Err(ShelfFault::Failed)) {
        return Err(Fail::from("it was stored"));
    }
    let left = fs::read(rt, place.file).ok();
    let _ = fs::remove_file(rt, other);
    if left.is_some() && fs::read(rt, place.file).is_err() {
        fs::remove_file(rt, place.file)?;
    }
    place.take(rt)?;
    Ok(left)
}

#[test]
fn what_others_wrote_stays(rt: HostRuntime) -> Result<(), Fail> {
    let place = place_of_one("outer_io_others", "outer_io_others/k.c");
    for deed in [Deed::WritesOver, Deed::Replaces, Deed::Links] {
        assert!(rt; is(&left_after(&rt, &place, deed)?, Some(OTHER)));
    }
    assert!(rt; is(&left_after(&rt, &place, Deed::Removes)?, None));
    assert!(rt; is(&left_after(&rt, &place, Deed::Locks)?, Some(OLD)));
    Ok(())
}

#[test]
fn what_was_stored_counts_as_loaded(rt: HostRuntime) -> Result<(), Fail> {
    let linked = Place {
        link: Some("outer_io_again/link.c"),
        ..place_of_one("outer_io_again", "outer_io_again/k.c")
    };
    linked.make(&rt)?;
    let mut shelf = FileShelf::new(&rt);
    for name in [linked.file, linked.name()] {
        assert!(rt; shelf.load(name, 100).is_ok());
    }
    for (name, bytes) in [
        (linked.file, LONG),
        (linked.name(), SHORT),
        (linked.file, LONG),
    ] {
        assert!(rt; shelf.store(name, bytes).is_ok());
    }
    assert!(rt; is(&linked.take(&rt)?, Some(LONG)));
    Ok(())
}

#[test]
fn nothing_is_stored_on_what_is_open_at_the_start(rt: HostRuntime) {
    for name in ["/dev/stdin", "/dev/fd/0", "/dev/fd/1"] {
        let end = FileShelf::new(&rt).store(name, SHORT);
        assert!(rt; matches!(end, Err(ShelfFault::Failed)), "{name}");
    }
}
