//! A source and a sink, of which a call may fail.
use snap_content::{Blob, OutOfMemory};
use snap_io::{MemorySink, MemorySource};
use std::alloc::Global;

/// How the outside behaves. A call of the number 0 never comes.
#[derive(Clone, Copy, Debug)]
pub struct Outside {
    /// How many bytes the source gives at most in one call.
    pub piece: usize,
    /// The number of the call of the source that fails.
    pub read: u64,
    /// The number of the call of the sink that fails.
    pub write: u64,
}

/// What is said with a blank between each two, as `piece=7 read=3`. What is not said is a source of pieces of 100 bytes, and no fault.
pub fn outside_of(column: &str) -> Outside {
    let mut outside = Outside {
        piece: 100,
        read: 0,
        write: 0,
    };
    for said in column.split(' ') {
        let (name, digits) = said.split_once('=').unwrap_or((said, ""));
        outside = with_said(outside, name, digits);
    }
    outside
}

/// The same, where this is said too.
fn with_said(mut outside: Outside, name: &str, digits: &str) -> Outside {
    match name {
        "piece" => outside.piece = digits.parse().unwrap_or(0),
        "read" => outside.read = digits.parse().unwrap_or(0),
        "write" => outside.write = digits.parse().unwrap_or(0),
        _ => {}
    }
    outside
}

/// The source of the input.
pub fn source_of(
    alloc: Global,
    outside: Outside,
    input: Blob,
) -> Result<MemorySource, OutOfMemory> {
    let failing = vec![in alloc; outside.read]?;
    let mut source = MemorySource::new(input, outside.piece);
    source.fail_at(failing);
    Ok(source)
}

/// The sink of what is written.
pub fn sink_of(alloc: Global, outside: Outside) -> Result<MemorySink, OutOfMemory> {
    let failing = vec![in alloc; outside.write]?;
    let mut sink = MemorySink::new(alloc);
    sink.fail_at(failing);
    Ok(sink)
}
