//! Doors: each is one server's at a time, for its owner alone, and what else is at its path stays.
use crate::equal::equal;
use serve_net::{Door, Net as LinkNet};
use serve_unix::UnixNet;
use std::alloc::Global;
use std::fs;
use std::fs::{File, Files};
use std::net::Net;
use std::os::unix::fs::{PermissionsExt, symlink};
use std::os::unix::net::{UnixListener, UnixStream};
use std::test::Fail;

// Whether a net of its own can open the door at the path; it is closed again.
fn opens<R: Files<File = File> + Net + Copy>(rt: R, alloc: Global, path: &str) -> bool {
    let mut net = UnixNet::new(rt, alloc);
    net.listen(Door::App, path).is_ok()
}

fn is_there<R: Files>(rt: &R, path: &str) -> bool {
    fs::symlink_metadata(rt, path).is_ok()
}

// A socket file that nobody listens at is replaced. A second server can't open a door that one has. It harms nobody: the
// first is reached as before. It can't open its door again elsewhere. All is gone at the end.
#[test]
fn a_door_is_opened_once(rt: HostRuntime) -> Result<(), Fail> {
    let alloc = rt.alloc();
    drop(UnixListener::bind(&rt, "once.sock")?);
    let mut net = UnixNet::new(rt, alloc);
    assert!(rt; net.listen(Door::App, "once.sock").is_ok());
    let mode = fs::metadata(&rt, "once.sock")?.permissions().mode();
    equal(&rt, mode & 0o777, 0o600);
    assert!(rt; !opens(rt, alloc, "once.sock"));
    assert!(rt; net.listen(Door::App, "again.sock").is_err());
    assert!(rt; UnixStream::connect(&rt, "once.sock").is_ok());
    drop(net);
    for path in ["once.sock", "once.sock.lock", "once.sock.new"] {
        assert!(rt; !is_there(&rt, path), "{path}");
    }
    assert!(rt; opens(rt, alloc, "once.sock"));
    Ok(())
}

// A file at the path that is no socket stays. A symbolic link at the lock's path isn't followed, and one at the folder's
// stays.
#[test]
fn other_files_stay(rt: HostRuntime) -> Result<(), Fail> {
    let alloc = rt.alloc();
    fs::write(&rt, "text.sock", "kept")?;
    assert!(rt; !opens(rt, alloc, "text.sock"));
    equal(&rt, fs::read_to_string(&rt, "text.sock")?.as_str(), "kept");
    symlink(&rt, "victim", "linked.sock.lock")?;
    assert!(rt; !opens(rt, alloc, "linked.sock"));
    assert!(rt; !is_there(&rt, "victim"));
    symlink(&rt, "nowhere", "folder.sock.new")?;
    assert!(rt; !opens(rt, alloc, "folder.sock"));
    assert!(rt; is_there(&rt, "folder.sock.new"));
    Ok(())
}
