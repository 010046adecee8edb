// A place in the file system that tests store to: a file, with a link or a second name.
use std::os::unix::fs::symlink;
use std::test::Fail;
use std::{fs, io};

pub const OLD: &[u8] = b"old bytes!";

pub const LONG: &[u8] = b"the new text has more bytes";

pub const SHORT: &[u8] = b"new";

/// A folder that contains only a file and other names that lead to it.
#[derive(Clone, Copy)]
pub struct Place {
    pub folder: &'static str,
    pub file: &'static str,
    /// Whether the file exists at first, with the old bytes.
    pub is_there: bool,
    pub link: Option<&'static str>,
    pub second: Option<&'static str>,
}

pub fn place_of_one(folder: &'static str, file: &'static str) -> Place {
    Place {
        folder,
        file,
        is_there: true,
        link: None,
        second: None,
    }
}

impl Place {
    pub fn make(&self, rt: &HostRuntime) -> io::Result<()> {
        fs::create_dir(rt, self.folder)?;
        if self.is_there {
            fs::write(rt, self.file, OLD)?;
        }
        if let Some(link) = self.link {
            symlink(rt, "k.c", link)?;
        }
        if let Some(second) = self.second {
            fs::hard_link(rt, self.file, second)?;
        }
        Ok(())
    }

    /// Returns the name to which tests store.
    pub fn name(&self) -> &'static str {
        self.link.unwrap_or(self.file)
    }

    /// Removes the names and the folder, which succeeds only if the folder has nothing else. Returns the bytes of the file,
    /// if there is one.
    pub fn take(&self, rt: &HostRuntime) -> Result<Option<Vec<u8>>, Fail> {
        let bytes = fs::read(rt, self.file).ok();
        if let Some(second) = self.second {
            if bytes != fs::read(rt, second).ok() {
                return Err(Fail::from("the two names have other bytes"));
            }
            fs::remove_file(rt, second)?;
        }
        if let Some(link) = self.link {
            if !fs::symlink_metadata(rt, link)?.is_symlink() {
                return Err(Fail::from("the link is a link no longer"));
            }
            fs::remove_file(rt, link)?;
        }
        if bytes.is_some() {
            fs::remove_file(rt, self.file)?;
        }
        fs::remove_dir(rt, self.folder)?;
        Ok(bytes)
    }
}

/// Returns the place of a file with a second name.
pub fn place_of_two(folder: &'static str, file: &'static str, second: &'static str) -> Place {
    Place {
        second: Some(second),
        ..place_of_one(folder, file)
    }
}

/// Whether the file has these bytes, or, for `None`, doesn't exist.
pub fn is(found: &Option<Vec<u8>>, wanted: Option<&[u8]>) -> bool {
    found.as_ref().map(|bytes| bytes.as_slice()) == wanted
}
