//! How a file is replaced: a helper beside it gets all bytes, and then takes its place.
ghost use Rattle.std.specs.Prelude.{◌≡◌, IfOk, IfErr, string_bytes};
ghost use Rattle.snap_io.specs.Disks.{asked_of};
ghost use Rattle.snap_io.specs.Operations.{Made, LookedAt};
ghost use Rattle.snap_io.specs.Writing.{BitsFor, HelperMade, NoHelper, moving, Replaced, FileWritten};

use crate::answers::bits_seen;
use crate::beside::{folder_of, helper_of, waits_for};
use crate::disk::Disk;
use crate::outside::{Fault, StoreError};
use std::fs::Files;

/// So many names of helpers are tried.
const MOST_HELPERS: u32 = 1000;

/// A file that was made under a name of its own.
#[derive(Drop)]
pub struct Helper<R: Files + Alloc + Clone + Drop> {
    path: String<R::A>,
    file: R::File,
}

/// The permission bits of the regular file at the path, where something is there.
pub(crate) fn bits_at<R: Files + Alloc + Clone + Drop>(
    disk: &mut Disk<R>,
    path: &str,
) -> Result<Option<u32>, StoreError>
    ensures { LookedAt path.now result (asked_of disk.old) (asked_of disk.new) }
{
    bits_seen(disk.look(path))
}

/// The permission bits that a new file at the path is to have: a value that few may read stays so, also where it is
/// pending.
fn bits_for<R: Files + Alloc + Clone + Drop>(
    disk: &mut Disk<R>,
    path: &str,
) -> Result<Option<u32>, StoreError>
    ensures { BitsFor path.now result (asked_of disk.old) (asked_of disk.new) }
{
    match bits_at(disk, path)? {
        Some(bits) => Ok(Some(bits)),
        None => match waits_for(path) {
            Some(snapshot) => bits_at(disk, snapshot),
            None => Ok(None),
        },
    }
}

/// Makes the first helper whose name is free. What has a taken name may be another run's, and stays.
fn make_helper<R: Files + Alloc + Clone + Drop>(
    disk: &mut Disk<R>,
    path: &str,
    bits: Option<u32>,
) -> Result<Helper<R>, StoreError>
    ensures made { IfOk result (λ helper.
        HelperMade path.now bits (string_bytes helper.path) (asked_of disk.old)
        (asked_of disk.new)) }
    ensures none { IfErr result (λ error.
        NoHelper path.now bits error (asked_of disk.old) (asked_of disk.new)) }
{
    for number in 0..MOST_HELPERS {
        let helper = helper_of(disk.alloc(), path, number)?;
        if let Some(file) = disk.create_new(helper.as_str(), bits)? {
            return Ok(Helper { path: helper, file });
        }
    }
    Err(StoreError::Failed)
}

fn move_helper<R: Files + Alloc + Clone + Drop>(
    disk: &mut Disk<R>,
    helper: &mut Helper<R>,
    bits: Option<u32>,
    path: &str,
    bytes: &[u8],
) -> Result<(), Fault>
    ensures moved { Made (moving (string_bytes helper.old.path) path.now bits bytes.now) result
        (asked_of disk.old) (asked_of disk.new) }
    ensures same { string_bytes helper.new.path ≡ string_bytes helper.old.path }
{
    if let Some(bits) = bits {
        disk.set_bits(&helper.file, bits)?;
    }
    disk.write(&mut helper.file, bytes)?;
    disk.rename(helper.path.as_str(), path)
}

/// Writes the bytes to a helper, and moves it to the path. One that can't be moved is taken away.
fn replace_file<R: Files + Alloc + Clone + Drop>(
    disk: &mut Disk<R>,
    path: &str,
    bits: Option<u32>,
    bytes: &[u8],
) -> Result<(), StoreError>
    ensures { Replaced path.now bits bytes.now result (asked_of disk.old) (asked_of disk.new) }
{
    let mut helper = make_helper(disk, path, bits)?;
    if let Err(fault) = move_helper(disk, &mut helper, bits, path, bytes) {
        let _ = disk.remove(helper.path.as_str());
        return Err(StoreError::from(fault));
    }
    Ok(())
}

/// Makes these the bytes of the file: whoever reads it finds it whole, old or new. A link at the path gives way to the
/// file; what is neither, as a folder or a pipe, is a fault.
pub(crate) fn write_file<R: Files + Alloc + Clone + Drop>(
    disk: &mut Disk<R>,
    path: &str,
    bytes: &[u8],
) -> Result<(), StoreError>
    ensures { FileWritten path.now bytes.now result (asked_of disk.old) (asked_of disk.new) }
{
    let bits = bits_for(disk, path)?;
    disk.make_folders(folder_of(path))?;
    replace_file(disk, path, bits, bytes)
}
