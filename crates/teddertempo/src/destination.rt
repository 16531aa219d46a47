//! Where the path of an output leads.

use crate::trouble::Trouble;
use std::fs;
use std::fs::Metadata;
use std::io::ErrorKind;
use std::path::Path;

// How many places a path may lead to, one behind the other: itself, and what 40 links lead to.
const MOST_PLACES: u8 = 41;

/// Where the path of an output leads.
#[derive(Drop)]
pub enum Destination {
    /// To standard output.
    Standard,
    /// To what is written where it stands: a pipe or a device, or an open file that is named by its number.
    InPlace(String),
    /// To a plain file that is there, which is replaced.
    Old(String, Metadata),
    /// To where nothing is yet.
    New(String),
}

// What a path leads to at once.
#[derive(Drop)]
enum Step {
    // The end.
    End(Destination),
    // Another path, by a link.
    Link(String),
}

// Whether the path is a name of standard output.
fn is_standard(place: &str) -> bool {
    match place {
        "/dev/stdout" | "/dev/fd/1" | "/proc/self/fd/1" => true,
        _ => false,
    }
}

// Whether a link under the path stands for an open file.
fn is_open_file(place: &str) -> bool {
    place.starts_with("/dev/fd/") || place.starts_with("/proc/")
}

// What is written where this stands, which is no link.
fn end_at(place: String, found: Metadata) -> Result<Step, Trouble> {
    if found.is_dir() {
        return Err(Trouble::Folder);
    }
    if !found.is_file() {
        return Ok(Step::End(Destination::InPlace(place)));
    }
    if found.permissions().readonly() {
        return Err(Trouble::ReadOnly);
    }
    Ok(Step::End(Destination::Old(place, found)))
}

// Where the link under the path leads: what it says, from the folder that it stands in.
fn behind_link(rt: &HostRuntime, place: &str) -> Result<String, Trouble> {
    let said = fs::read_link(rt, place)?;
    let folder = Path::new(place).parent().unwrap_or(Path::new(""));
    Ok(folder.join(rt.alloc(), said.as_path())?.into_string())
}

// What the path leads to at once.
fn step_from(rt: &HostRuntime, place: String) -> Result<Step, Trouble> {
    if is_standard(place.as_str()) {
        return Ok(Step::End(Destination::Standard));
    }
    match fs::symlink_metadata(rt, place.as_str()) {
        Ok(found) if !found.is_symlink() => end_at(place, found),
        Ok(_) if is_open_file(place.as_str()) => Ok(Step::End(Destination::InPlace(place))),
        Ok(_) => Ok(Step::Link(behind_link(rt, place.as_str())?)),
        Err(error) if error.kind() != ErrorKind::NotFound || place.is_empty() => {
            Err(Trouble::Output(error))
        }
        Err(_) => Ok(Step::End(Destination::New(place))),
    }
}

/// Where the path leads, through each link. Fails where that is a folder, or a file that nobody may write.
pub fn destination_of(rt: &HostRuntime, path: &str) -> Result<Destination, Trouble> {
    let mut place = String::from_str(rt.alloc(), path)?;
    for _ in 0..MOST_PLACES {
        match step_from(rt, place)? {
            Step::End(destination) => return Ok(destination),
            Step::Link(next) => place = next,
        }
    }
    Err(Trouble::Links)
}
