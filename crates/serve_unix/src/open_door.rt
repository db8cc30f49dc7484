//! A door at a path.
use crate::door_lock::DoorLock;
use std::alloc::Global;
use std::fs::{DirBuilder, File, Files, Permissions};
use std::io::ErrorKind;
use std::net::Net;
use std::os::fd::OwnedFd;
use std::os::unix::fs::{DirBuilderExt, FileTypeExt, MetadataExt, PermissionsExt};
use std::os::unix::net::{UnixListener, UnixStream};
use std::time::Duration;
use std::{fs, io};

// The owner of a door alone may connect, and alone may enter the folder in which its file is made.
const MODE: u32 = 0o600;

const FOLDER_MODE: u32 = 0o700;

// How long a wait for a link goes on before the door's file is looked at, in seconds.
const LOOK: u64 = 1;

/// A listener, the socket file that it made, and the lock of its path. The file is removed before
/// the listener is closed, and the lock goes last.
pub(crate) struct OpenDoor<R: Files<File = File> + Copy> {
    rt: R,
    listener: UnixListener,
    path: String,
    file: FileName,
    lock: DoorLock<R>,
}

/// Which file it is, whatever its path.
#[derive(Clone, Copy, PartialEq, Eq)]
struct FileName {
    device: u64,
    number: u64,
}

// Which file the path names, without following a symbolic link.
fn file_at<R: Files>(rt: &R, path: &str) -> io::Result<FileName> {
    let found = fs::symlink_metadata(rt, path)?;
    Ok(FileName {
        device: found.dev(),
        number: found.ino(),
    })
}

impl<R: Files<File = File> + Copy> Drop for OpenDoor<R> {
    fn drop(self) {
        if self.stands() {
            let _ = fs::remove_file(&self.rt, self.path.as_str());
        }
        let OpenDoor {
            rt: _,
            listener,
            path: _,
            file: _,
            lock,
        } = self;
        drop(listener);
        drop(lock);
    }
}

impl<R: Files<File = File> + Copy> OpenDoor<R> {
    /// Whether the socket file that it made is still at its path.
    fn stands(&self) -> bool {
        match file_at(&self.rt, self.path.as_str()) {
            Ok(file) => file == self.file,
            Err(_) => false,
        }
    }

    /// Waits for a link, so many seconds at most. Fails also where the socket file is gone from its
    /// path.
    pub(crate) fn accept(&self, wait: u32) -> io::Result<UnixStream> {
        for _ in 0..u64::from(wait).div_ceil(LOOK) {
            match self.listener.accept() {
                Ok((stream, _from)) => return Ok(stream),
                Err(error) if error.kind() == ErrorKind::WouldBlock && self.stands() => {}
                Err(error) => return Err(error),
            }
        }
        Err(io::Error::from(ErrorKind::TimedOut))
    }
}

impl<R: Files<File = File> + Net + Copy> OpenDoor<R> {
    /// Makes a socket file at the path, for its owner alone. Fails where another server has the door.
    /// The socket file of a server that is gone is replaced; any other file stays, and then it fails.
    pub(crate) fn at(rt: R, alloc: Global, path: &str) -> io::Result<OpenDoor<R>> {
        let kept = String::from_str(alloc, path)?;
        let lock = DoorLock::at(rt, format!(in alloc; "{path}.lock")?)?;
        let listener = listen(&rt, alloc, path)?;
        let file = file_at(&rt, path)?;
        Ok(OpenDoor {
            rt,
            listener,
            path: kept,
            file,
            lock,
        })
    }
}

// A listener whose socket file comes to its path when only its owner can connect: it is made in a
// folder that nobody else may enter, and moved.
fn listen<R: Files + Net>(rt: &R, alloc: Global, path: &str) -> io::Result<UnixListener> {
    is_free(rt, path)?;
    let folder = format!(in alloc; "{path}.new")?;
    let made = format!(in alloc; "{folder}/s")?;
    let folder = folder.as_str();
    clear(rt, folder, made.as_str());
    DirBuilder::new().mode(FOLDER_MODE).create(rt, folder)?;
    let listener = listen_in(rt, made.as_str(), path);
    clear(rt, folder, made.as_str());
    listener
}

// Makes the socket file, and moves it to its path.
fn listen_in<R: Files + Net>(rt: &R, made: &str, path: &str) -> io::Result<UnixListener> {
    let listener = UnixListener::bind(rt, made)?;
    fs::set_permissions(rt, made, Permissions::from_mode(MODE))?;
    look_up_at_times(&listener)?;
    fs::rename(rt, made, path)?;
    Ok(listener)
}

// Lets each wait for a link end after a while, by the timeout of the socket that a stream can set.
fn look_up_at_times(listener: &UnixListener) -> io::Result<()> {
    let socket = UnixStream::from(OwnedFd::from(listener.try_clone()?));
    socket.set_read_timeout(Some(Duration::from_secs(LOOK)))
}

// That at most a socket file is at the path.
fn is_free<R: Files>(rt: &R, path: &str) -> io::Result<()> {
    match fs::symlink_metadata(rt, path) {
        Ok(found) if !found.file_type().is_socket() => {
            Err(io::Error::from(ErrorKind::AlreadyExists))
        }
        _ => Ok(()),
    }
}

// Removes the folder, which a server that was killed may have left, and the socket file in it.
fn clear<R: Files>(rt: &R, folder: &str, made: &str) {
    if let Ok(found) = fs::symlink_metadata(rt, folder) {
        if found.is_dir() {
            let _ = fs::remove_file(rt, made);
            let _ = fs::remove_dir(rt, folder);
        }
    }
}
