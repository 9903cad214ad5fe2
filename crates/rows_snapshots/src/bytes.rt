//! Bytes in one column: numbers with a blank between each two.
use snap_content::{Blob, OutOfMemory};
use std::alloc::Global;

/// The bytes of a column.
pub fn bytes_of(alloc: Global, column: &str) -> Result<Blob, OutOfMemory> {
    let mut bytes = Vec::new(alloc);
    for digits in column.split_whitespace() {
        bytes.push(digits.parse::<u8>().unwrap_or(0))?;
    }
    Blob::from_slice(alloc, bytes.as_slice())
}
