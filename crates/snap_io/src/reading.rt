//! How a file is read, and how bytes are added to one.
ghost use Rattle.std.specs.Prelude.{◌<◌, length};
ghost use Rattle.snap_io.specs.Disks.{asked_of};
ghost use Rattle.snap_io.specs.Operations.{Made, appending, ReadToEnd, OpenedAndRead, FileRead, LookedAtLink, FileAppended};

use crate::answers::bits_seen;
use crate::beside::folder_of;
use crate::disk::Disk;
use crate::outside::{Fault, StoreError};
use crate::replacing::bits_at;
use snap_content::Blob;
use std::alloc::Global;
use std::fs::Files;

/// A longer file is a fault.
const MAX_FILE: usize = 67_108_864;

/// The bytes of the file, where there is one. What is no regular file is not opened, since a pipe would make us wait.
pub(crate) fn read_file<R: Files + Alloc + Clone + Drop>(
    disk: &mut Disk<R>,
    alloc: Global,
    path: &str,
) -> Result<Option<Blob>, StoreError>
    ensures { FileRead path.now result (asked_of disk.old) (asked_of disk.new) }
{
    match bits_at(disk, path)? {
        Some(_) => open_and_read(disk, alloc, path),
        None => Ok(None),
    }
}

fn open_and_read<R: Files + Alloc + Clone + Drop>(
    disk: &mut Disk<R>,
    alloc: Global,
    path: &str,
) -> Result<Option<Blob>, StoreError>
    ensures { OpenedAndRead path.now result (asked_of disk.old) (asked_of disk.new) }
{
    match disk.open(path)? {
        Some(mut file) => Ok(Some(read_to_end(disk, alloc, &mut file)?)),
        None => Ok(None),
    }
}

/// All bytes that are left, where they are not too many.
fn read_to_end<R: Files + Alloc + Clone + Drop>(
    disk: &mut Disk<R>,
    alloc: Global,
    file: &mut R::File,
) -> Result<Blob, StoreError>
    ensures { ReadToEnd result (asked_of disk.old) (asked_of disk.new) }
{
    let mut buffer = disk.take_buffer()?;
    let answer = read_pieces(disk, alloc, file, buffer.as_mut_slice());
    disk.keep_buffer(buffer);
    answer
}

/// The same, through the buffer.
fn read_pieces<R: Files + Alloc + Clone + Drop>(
    disk: &mut Disk<R>,
    alloc: Global,
    file: &mut R::File,
    buffer: &mut [u8],
) -> Result<Blob, StoreError>
    requires { 0 < length buffer.old }
    ensures { ReadToEnd result (asked_of disk.old) (asked_of disk.new) }
{
    let mut bytes = Vec::new(alloc);
    while bytes.len() <= MAX_FILE {
        let Ok(count) = disk.read(file, buffer) else {
            return Err(StoreError::Failed);
        };
        if count == 0 {
            return Ok(Blob::from_vec(bytes));
        }
        bytes.extend_from_slice(&buffer[..count])?;
    }
    Err(StoreError::Failed)
}

/// Adds the bytes to the file itself, with no helper: a write that is cut off may leave a part of them there.
/// A link is a fault, since the bytes would go where it leads.
pub(crate) fn append_file<R: Files + Alloc + Clone + Drop>(
    disk: &mut Disk<R>,
    path: &str,
    bytes: &[u8],
) -> Result<(), StoreError>
    ensures { FileAppended path.now bytes.now result (asked_of disk.old) (asked_of disk.new) }
{
    bits_at_link(disk, path)?;
    Ok(add_bytes(disk, path, bytes)?)
}

fn bits_at_link<R: Files + Alloc + Clone + Drop>(
    disk: &mut Disk<R>,
    path: &str,
) -> Result<Option<u32>, StoreError>
    ensures { LookedAtLink path.now result (asked_of disk.old) (asked_of disk.new) }
{
    bits_seen(disk.look_at_link(path))
}

fn add_bytes<R: Files + Alloc + Clone + Drop>(
    disk: &mut Disk<R>,
    path: &str,
    bytes: &[u8],
) -> Result<(), Fault>
    ensures { Made (appending path.now bytes.now) result (asked_of disk.old) (asked_of disk.new) }
{
    disk.make_folders(folder_of(path))?;
    let mut file = disk.open_to_append(path)?;
    disk.write(&mut file, bytes)
}
