//! The names in a real folder.
ghost use Rattle.std.specs.Prelude.{◌≡◌, ◌<◌, ◌∷◌, ◌++◌, [], true, false, length, map, IfOk, IfSome, MatchOption, string_bytes};
ghost use Rattle.std.specs.List.{filter, slice_split};
ghost use Rattle.snap_io.specs.Disks.{asked_of};
ghost use Rattle.std.specs.Str.{chars, is_utf8};
ghost use Rattle.snap_io.specs.Listing.{is_entry, is_listed, is_zero, names_in, ToldToEnd, opened_folder, FolderTold};

use crate::disk::Disk;
use crate::names::Names;
use crate::outside::StoreError;
use memchr::memchr;
use snap_content::{OutOfMemory, Text};
use std::alloc::{AllocError, Allocator, Global};
use std::fs::Files;

/// The names in a folder, folders among them; not those that are no UTF-8. More than `most` are a fault.
pub(crate) fn list_folder<R: Files + Alloc + Clone + Drop>(
    disk: &mut Disk<R>,
    alloc: Global,
    folder: &str,
    most: usize,
) -> Result<Names, StoreError>
    ensures { FolderTold most folder.now result (asked_of disk.old) (asked_of disk.new) }
{
    let path = opened_folder(disk.alloc(), folder)?;
    match disk.list(path.as_str())? {
        Some(mut told) => read_names(disk, alloc, &mut told, most),
        None => Ok(Names::new(alloc)),
    }
}

/// The slash after it makes the system follow a link there. The working folder is a dot to the system.
fn opened_folder<A: Allocator>(alloc: A, folder: &str) -> Result<String<A>, AllocError>
    ensures { IfOk result (λ path. string_bytes path ≡ opened_folder folder.now) }
{
    let mut path = String::from_str(alloc, if folder.is_empty() { "." } else { folder })?;
    path.push_str("/")?;
    Ok(path)
}

/// The names that the open folder tells, up to its end.
fn read_names<R: Files + Alloc + Clone + Drop>(
    disk: &mut Disk<R>,
    alloc: Global,
    told: &mut R::Dir,
    most: usize,
) -> Result<Names, StoreError>
    ensures { ToldToEnd most result (asked_of disk.old) (asked_of disk.new) }
{
    let mut buffer = disk.take_buffer()?;
    let answer = read_pieces(disk, alloc, told, most, buffer.as_mut_slice());
    disk.keep_buffer(buffer);
    answer
}

/// The same, through the buffer. A name has at most 255 bytes, and the system gives no part of one.
fn read_pieces<R: Files + Alloc + Clone + Drop>(
    disk: &mut Disk<R>,
    alloc: Global,
    told: &mut R::Dir,
    most: usize,
    buffer: &mut [u8],
) -> Result<Names, StoreError>
    requires { 0 < length buffer.old }
    ensures { ToldToEnd most result (asked_of disk.old) (asked_of disk.new) }
{
    let mut names = Names::new(alloc);
    for _ in 0..u64::MAX {
        let count = disk.next(told, buffer)?;
        if count == 0 {
            return Ok(names);
        }
        push_names(alloc, &mut names, &buffer[..count])?;
        if names.len() > most {
            return Err(StoreError::Failed);
        }
    }
    Err(StoreError::Failed)
}

/// Adds the names in the bytes, each ended by a 0.
pub(crate) fn push_names(alloc: Global, names: &mut Names, bytes: &[u8]) -> Result<(), OutOfMemory>
    ensures { IfOk result (λ _. names.new ≡ names.old ++ names_in bytes.now) }
{
    let mut rest = bytes;
    while let Some((name, more)) = split_name(rest) {
        push_name(alloc, names, name)?;
        rest = more;
    }
    push_name(alloc, names, rest)
}

/// What stands before the first 0, and what stands after it.
fn split_name(bytes: &[u8]) -> Option<(&[u8], &[u8])>
    ensures cut { MatchOption result (slice_split is_zero bytes.now ≡ bytes.now ∷ [])
        (λ p. slice_split is_zero bytes.now ≡ p.0.now ∷ slice_split is_zero p.1.now) }
    ensures shorter { IfSome result (λ p. length p.1.now < length bytes.now) }
{
    match memchr(0, bytes) {
        None => None,
        Some(at) => {
            let (name, _) = bytes.split_at(at);
            let (_, more) = bytes.split_at(at + 1);
            Some((name, more))
        }
    }
}

/// Adds the name, where it is that of an entry.
fn push_name(alloc: Global, names: &mut Names, name: &[u8]) -> Result<(), OutOfMemory>
    ensures { IfOk result (λ _. names.new
        ≡ names.old ++ map chars (filter is_listed (name.now ∷ []))) }
{
    match listed(name) {
        None => Ok(()),
        Some(name) => Ok(names.push(Text::from_str(alloc, name)?)?),
    }
}

/// The name as a text, where it is that of an entry.
fn listed(name: &[u8]) -> Option<&str>
    ensures { MatchOption result (is_listed name.now ≡ false)
        (λ text. (text.now ≡ name.now) × (is_listed name.now ≡ true)) }
{
    let text = text_of(name)?;
    if is_entry(text) { Some(text) } else { None }
}

fn text_of(name: &[u8]) -> Option<&str>
    ensures { MatchOption result (is_utf8 name.now ≡ false)
        (λ text. (text.now ≡ name.now) × (is_utf8 name.now ≡ true)) }
{
    match str::from_utf8(name) {
        Ok(text) => Some(text),
        Err(_) => None,
    }
}

/// Neither empty, nor the folder itself, nor the one above.
fn is_entry(name: &str) -> bool
    ensures { result ≡ is_entry name.now }
{
    !name.is_empty() && name != "." && name != ".."
}
