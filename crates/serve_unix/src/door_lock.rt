//! The lock of a door: a file beside its socket, which the system unlocks where its holder ends.
use std::fs::{File, Files, OpenOptions};
use std::io::ErrorKind;
use std::os::unix::fs::{MetadataExt, OpenOptionsExt};
use std::{fs, io};

// Its owner alone may open it.
const MODE: u32 = 0o600;

/// Keeps other servers from a door while it lives. The file is removed where it is dropped.
pub(crate) struct DoorLock<R: Files<File = File> + Copy> {
    rt: R,
    file: File,
    path: String,
}

impl<R: Files<File = File> + Copy> Drop for DoorLock<R> {
    fn drop(self) {
        let DoorLock { rt, file, path } = self;
        let _ = fs::remove_file(&rt, path.as_str());
        drop(file);
    }
}

impl<R: Files<File = File> + Copy> DoorLock<R> {
    /// Locks the file at the path, and makes it where there is none. Fails where another server has
    /// it, and where something else than a file is there.
    pub(crate) fn at(rt: R, path: String) -> io::Result<DoorLock<R>> {
        let file = open(&rt, path.as_str())?;
        file.try_lock()?;
        if !is_still_at(&rt, &file, path.as_str())? {
            return Err(io::Error::from(ErrorKind::WouldBlock));
        }
        Ok(DoorLock { rt, file, path })
    }
}

fn open<R: Files<File = File>>(rt: &R, path: &str) -> io::Result<File> {
    if let Ok(found) = fs::symlink_metadata(rt, path) {
        if !found.is_file() {
            return Err(io::Error::from(ErrorKind::AlreadyExists));
        }
    }
    let mut how = OpenOptions::new();
    how.read(true).write(true).create(true).mode(MODE);
    how.open(rt, path)
}

// Whether the path names this very file: a server that ended meanwhile removed the one that it had,
// and a symbolic link names another.
fn is_still_at<R: Files>(rt: &R, file: &File, path: &str) -> io::Result<bool> {
    let held = file.metadata()?;
    let named = fs::symlink_metadata(rt, path)?;
    Ok(held.dev() == named.dev() && held.ino() == named.ino())
}
