//! Which file a path leads to.

use std::os::unix::fs::MetadataExt;
use std::rt::Files;
use std::{fs, io};

/// The path of standard output.
pub const STANDARD_OUTPUT: &str = "/dev/stdout";

/// The identity of a regular file: its device, and its inode number on that device. Every path to the file gives the
/// same identity.
#[derive(Clone, Copy, Debug, PartialEq, Eq)]
pub struct FileIdentity {
    device: u64,
    number: u64,
}

/// The identity of the regular file that a path leads to; links are followed. `None` if the path leads to no regular
/// file.
pub fn identity_of<R: Files>(files: &R, path: &str) -> Option<FileIdentity> {
    let metadata = fs::metadata(files, path).ok()?;
    if !metadata.is_file() {
        return None;
    }
    Some(FileIdentity {
        device: metadata.dev(),
        number: metadata.ino(),
    })
}

/// The error for a file that must not be made or emptied, because the run already uses it.
pub fn already_used() -> io::Error {
    io::Error::other("the run reads or writes this file already")
}
