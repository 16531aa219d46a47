//! A file that is written beside another one, and takes its place when all of it is there.

use crate::trouble::Trouble;
use std::fs::{File, Metadata, OpenOptions, Permissions};
use std::io::ErrorKind;
use std::os::unix::fs::{MetadataExt, OpenOptionsExt, PermissionsExt, fchown};
use std::os::unix::io::AsFd;
use std::{fs, io};

// How many names a file beside another one may have.
const MOST_NAMES: u32 = 1000;

// The rights of a file that nobody else may read.
const OWNER_ALONE: u32 = 0o600;

// The rights of a new file, of which the process's mask takes some away.
const ANYONE: u32 = 0o666;

/// A file that is written beside another one.
#[derive(Drop)]
pub struct Beside {
    path: String,
    file: File,
}

// Gives the file the owner, the group and the rights of the old one. Where the process may not give it that group, its own group may
// do what both the old one's group and all others might.
fn keep_rights(file: &File, old: &Metadata) -> io::Result<()> {
    let rights = old.mode() & 0o777;
    let of_others = rights & 0o007;
    let _ = fchown(file.as_fd(), Some(old.uid()), None);
    let kept = match fchown(file.as_fd(), None, Some(old.gid())) {
        Ok(()) => rights,
        Err(_) => rights & (0o707 | of_others << 3),
    };
    file.set_permissions(Permissions::from_mode(kept))
}

impl Beside {
    /// Makes a file beside the place, under a name that nothing has yet. Where a file is at the place, nobody but the owner may read
    /// the new one as long as it is written.
    pub fn create(rt: &HostRuntime, place: &str, is_new: bool) -> Result<Beside, Trouble> {
        let rights = if is_new { ANYONE } else { OWNER_ALONE };
        let mut how = OpenOptions::new();
        how.write(true).create_new(true).mode(rights);
        for number in 0..MOST_NAMES {
            let path = format!(in rt.alloc(); "{place}.new-{number}")?;
            match how.open(rt, path.as_str()) {
                Ok(file) => return Ok(Beside { path, file }),
                Err(error) if error.kind() == ErrorKind::AlreadyExists => {}
                Err(error) => return Err(Trouble::Output(error)),
            }
        }
        Err(Trouble::Crowded)
    }

    /// The file.
    pub fn file(&self) -> &File {
        &self.file
    }

    /// Removes the file.
    pub fn remove(self, rt: &HostRuntime) {
        let _ = fs::remove_file(rt, self.path.as_str());
    }

    /// Puts the file into the place, with the rights of the old one, where there is one. Removes it where that fails.
    pub fn replace(
        self,
        rt: &HostRuntime,
        place: &str,
        old: Option<&Metadata>,
    ) -> Result<(), Trouble> {
        let kept = match old {
            Some(old) => keep_rights(&self.file, old),
            None => Ok(()),
        };
        let result = kept.and_then(|()| fs::rename(rt, self.path.as_str(), place));
        match result {
            Ok(()) => Ok(()),
            Err(error) => {
                self.remove(rt);
                Err(Trouble::Replacement(error))
            }
        }
    }
}
