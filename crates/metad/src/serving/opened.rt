//! The two files of a store before they are served.

use crate::ending::not_read;
use crate::files::Spare;
use crate::heads::{Other, look};
use crate::names::Names;
use crate::telling::tell_unread_head;
use sqlite_disk::Disk;
use std::process::ExitCode;

/// A file that counts, the other one, and what both are called.
#[derive(Drop)]
pub struct Disks<'a, D: Disk + Drop> {
    pub rt: &'a HostRuntime,
    pub names: Names<'a>,
    pub disk: D,
    pub spare: Spare<D>,
    /// What is known of the other one.
    pub other: Other,
}

// What is known of a file that doesn't count, and its disk. Where it can't be read that is told.
fn look_at<D: Disk + Drop>(
    rt: &HostRuntime,
    names: Names<'_>,
    is_second: bool,
    disk: D,
) -> Result<(D, Other), ExitCode> {
    let path = names.of(is_second);
    let (disk, looked) = look(rt.alloc(), is_second, disk);
    match looked {
        Ok(other) => {
            if other.is_unread {
                tell_unread_head(rt, path);
            }
            Ok((disk, other))
        }
        Err(error) => Err(not_read(rt, path, error)),
    }
}

/// The file that counts, and what is known of the other one.
pub fn disks_of<'a, D: Disk + Drop>(
    rt: &'a HostRuntime,
    names: Names<'a>,
    is_second: bool,
    first: D,
    second: D,
) -> Result<Disks<'a, D>, ExitCode> {
    if is_second {
        let (first, other) = look_at(rt, names, false, first)?;
        return Ok(Disks {
            rt,
            names,
            disk: second,
            spare: Spare::First(first),
            other,
        });
    }
    let (second, other) = look_at(rt, names, true, second)?;
    Ok(Disks {
        rt,
        names,
        disk: first,
        spare: Spare::Second(second),
        other,
    })
}
