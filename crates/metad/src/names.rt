//! The two files of a store, by their names.

use std::alloc::{AllocError, Global};
use std::fs;
use std::io::ErrorKind;
use std::os::unix::fs::{MetadataExt, OpenOptionsExt};
use std::time::{Duration, Instant};

// A look at a file's name counts for so many seconds.
const LOOK_SECONDS: u64 = 1;

/// What the folder of a store and its two files are called.
#[derive(Clone, Copy)]
pub struct Names<'a> {
    pub folder: &'a str,
    pub first: &'a str,
    pub second: &'a str,
}

impl<'a> Names<'a> {
    /// One of the two.
    pub fn of(self, is_second: bool) -> &'a str {
        if is_second {
            return self.second;
        }
        self.first
    }
}

// Which file a name leads to: its device and its number there.
#[derive(Clone, Copy)]
struct Node {
    device: u64,
    number: u64,
}

// What a look at a name finds.
#[derive(Clone, Copy)]
enum Target {
    There(Node),
    Gone,
    /// The look itself failed.
    Unknown,
}

/// Copies of the names, which a file keeps, and the files that they led to at the start.
#[derive(Drop)]
pub struct OwnNames {
    first: String,
    second: String,
    first_node: Target,
    second_node: Target,
    seen: Option<Instant>,
}

// Looks which file a name leads to.
fn target_of(rt: &HostRuntime, path: &str) -> Target {
    match fs::metadata(rt, path) {
        Ok(data) => Target::There(Node {
            device: data.dev(),
            number: data.ino(),
        }),
        Err(error) => match error.kind() {
            ErrorKind::NotFound | ErrorKind::NotADirectory => Target::Gone,
            _ => Target::Unknown,
        },
    }
}

// Whether a look finds the file that one at the start found. A look that fails tells nothing.
fn is_same(before: Target, now: Target) -> bool {
    match (before, now) {
        (Target::There(one), Target::There(other)) => {
            one.device == other.device && one.number == other.number
        }
        (_, Target::Gone) => false,
        (Target::Gone, Target::There(_)) => false,
        _ => true,
    }
}

// Whether a moment is less than a second ago.
fn is_fresh(rt: &HostRuntime, seen: Option<Instant>) -> bool {
    let Some(seen) = seen else {
        return false;
    };
    match seen.elapsed(rt) {
        Ok(time) => time < Duration::from_secs(LOOK_SECONDS),
        Err(_) => false,
    }
}

impl OwnNames {
    /// Copies the names, and looks which files they lead to.
    pub fn new(rt: &HostRuntime, names: Names<'_>) -> Result<OwnNames, AllocError> {
        let alloc = rt.alloc();
        let first = String::from_str(alloc, names.first)?;
        let second = String::from_str(alloc, names.second)?;
        let place = second_place(rt, names.first)?;
        let first_node = target_of(rt, names.first);
        let second_node = target_of(rt, place.as_str());
        Ok(OwnNames {
            first,
            second,
            first_node,
            second_node,
            seen: None,
        })
    }

    /// One of the two.
    pub fn of(&self, is_second: bool) -> &str {
        if is_second {
            return self.second.as_str();
        }
        self.first.as_str()
    }

    // Whether the names lead to the files of the start. The second one's is asked where it counts.
    fn lead_back(&self, rt: &HostRuntime, is_second: bool) -> bool {
        if !is_same(self.first_node, target_of(rt, self.first.as_str())) {
            return false;
        }
        if !is_second {
            return true;
        }
        match second_place(rt, self.first.as_str()) {
            Ok(place) => is_same(self.second_node, target_of(rt, place.as_str())),
            Err(_) => true,
        }
    }

    /// Whether a start would find the file, as a look finds it that is less than a second old: one
    /// that was removed, or moved with its folder, is found by none.
    pub fn are_there(&mut self, rt: &HostRuntime, is_second: bool) -> bool {
        if is_fresh(rt, self.seen) {
            return true;
        }
        if !self.lead_back(rt, is_second) {
            return false;
        }
        self.seen = Instant::now(rt).ok();
        true
    }
}

/// The first file of a folder.
pub fn first_name(alloc: Global, dir: &str) -> Result<String, AllocError> {
    format!(in alloc; "{dir}/metad.journal")
}

/// The second file beside the first.
pub fn second_name(alloc: Global, first: &str) -> Result<String, AllocError> {
    format!(in alloc; "{first}-wal")
}

/// Where the second file is: beside the first one, wherever a link leads to that.
pub fn second_place(rt: &HostRuntime, first: &str) -> Result<String, AllocError> {
    match fs::canonicalize(rt, first) {
        Ok(real) => second_name(rt.alloc(), real.as_str()),
        Err(_) => second_name(rt.alloc(), first),
    }
}

/// Whether a folder is there, and no file has this name in it.
pub fn is_missing(rt: &HostRuntime, folder: &str, path: &str) -> bool {
    match fs::symlink_metadata(rt, path) {
        Ok(_) => false,
        Err(error) if error.kind() == ErrorKind::NotFound => match fs::metadata(rt, folder) {
            Ok(data) => data.is_dir(),
            Err(_) => false,
        },
        Err(_) => false,
    }
}

/// Makes a file that its owner alone may read and write, where nothing has its name yet. What fails
/// here fails again where the file is opened, and ends the start there.
pub fn make_private(rt: &HostRuntime, path: &str) {
    let _made = fs::OpenOptions::new()
        .read(true)
        .write(true)
        .create_new(true)
        .mode(0o600)
        .open(rt, path);
}
