//! How many bytes the files of a demonstration have.
ghost use Rattle.std.specs.Prelude.{◌≡◌, ◌<◌, ◌≤◌, ◌+◌, ◌^◌, List, ℕ, Some, IfOk, IfErr, length, unwrap_or, []};
ghost use Rattle.std.specs.FinMap.{get};
ghost use Rattle.snap_io.specs.Causes.{Counted, is_failed};
ghost use Rattle.snap_io.specs.Files.{Files};
ghost use Rattle.snap_demo.specs.Held.{bytes_held, is_held_fault, IsAtRequest, IsOfRequests};
ghost use Rattle.snap_demo.specs.Paths.{demo_path, demo_paths};

use crate::paths::demo_path;
use snap_content::{OutOfMemory, Text};
use snap_io::{Store, StoreError};
use std::alloc::Global;

/// Why the files of a demonstration were not counted.
#[derive(Debug, PartialEq, Eq, Drop)]
pub enum HeldError {
    /// The store failed to read the file of this request, counted from 1.
    FileIo { request: u64, path: Text },
    OutOfMemory,
}

impl From<OutOfMemory> for HeldError {
    ghost use Rattle.std.specs.Prelude.{◌≡◌};
    ghost use Rattle.snap_demo.specs.declared.held.HeldError.TheVariants.{OutOfMemory};

    ghost from_gives = { λ _ e. e ≡ OutOfMemory };

    fn from(_: OutOfMemory) -> Self {
        HeldError::OutOfMemory
    }
}

/// How many bytes the file at the path has; a missing one has none.
fn size_at<F: Store>(alloc: Global, path: &Text, store: &mut F) -> Result<usize, StoreError>
    ensures size { IfOk result (λ size. (m : Files) → F.files store.old ≡ Some m
        → size ≡ length (unwrap_or (get m path.now) [])) }
    ensures same { F.files store.new ≡ F.files store.old }
    ensures cause { Counted is_failed (F.faults store.old) (F.faults store.new) result }
{
    match store.read(alloc, path)? {
        Some(bytes) => Ok(bytes.as_slice().len()),
        None => Ok(0),
    }
}

/// How many bytes the file of the request with this number has, counted from 0.
fn size_of_request<F: Store>(alloc: Global, index: u32, store: &mut F) -> Result<usize, HeldError>
    ensures size { IfOk result (λ size. (m : Files) → F.files store.old ≡ Some m
        → size ≡ length (unwrap_or (get m (demo_path index)) [])) }
    ensures named { IfErr result (λ error. IsAtRequest index error) }
    ensures same { F.files store.new ≡ F.files store.old }
    ensures cause { Counted is_held_fault (F.faults store.old) (F.faults store.new) result }
{
    let path = demo_path(alloc, index)?;
    match size_at(alloc, &path, store) {
        Ok(size) => Ok(size),
        Err(StoreError::Failed) => Err(HeldError::FileIo {
            request: u64::from(index) + 1,
            path,
        }),
        Err(StoreError::OutOfMemory) => Err(HeldError::OutOfMemory),
    }
}

/// How many bytes the files of so many requests have together, each read once; a missing one has none. No file is touched.
pub fn bytes_held<F: Store>(alloc: Global, count: u32, store: &mut F) -> Result<u128, HeldError>
    ensures total { IfOk result (λ total. (m : Files) → F.files store.old ≡ Some m
        → total ≡ bytes_held (demo_paths count) m) }
    ensures named { IfErr result (λ error. IsOfRequests count error) }
    ensures same { F.files store.new ≡ F.files store.old }
    ensures untouched { count ≡ 0 → store.new ≡ store.old }
    ensures cause { Counted is_held_fault (F.faults store.old) (F.faults store.new) result }
{
    let mut total = 0u128;
    for index in 0..count {
        total += size_of_request(alloc, index, store)? as u128;
    }
    Ok(total)
}
