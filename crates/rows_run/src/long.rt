//! A run over an input that no memory holds.
ghost use Rattle.std.specs.Prelude.{None};

use crate::answers::add_ending;
use rows::{add_number_column, first_column};
use rows_outside::words_of;
use snap_content::Text;
use snap_io::{Fault, MemorySink, MemoryStore, Source};
use snap_run::{Status, run};
use std::alloc::Global;

/// So many line ends. It tells nothing of them.
#[derive(Drop)]
struct LineEnds {
    left: usize,
}

impl Source for LineEnds {
    ghost left = { λ _. None };

    ghost faults = { λ _. 0 };

    fn read(&mut self, buffer: &mut [u8]) -> Result<usize, Fault> {
        let count = buffer.len().min(self.left);
        buffer.fill(b'\n');
        self.left -= count;
        Ok(count)
    }
}

/// How a run over so many line ends ends, how many files there are then, and how many line ends were not read.
pub(crate) fn long_line(alloc: Global, columns: &str) -> Result<Text, anyhow::Error> {
    let (words, digits) = first_column(columns);
    let words = words_of(alloc, words, ' ')?;
    let mut source = LineEnds {
        left: digits.parse().unwrap_or(0),
    };
    let mut sink = MemorySink::new(alloc);
    let mut store = MemoryStore::new(alloc);
    let status = run(alloc, &words, &mut source, &mut sink, &mut store);
    ended_line(alloc, &status, sink.written(), store.len(), source.left)
}

fn ended_line(
    alloc: Global,
    status: &Status,
    written: &[u8],
    files: usize,
    left: usize,
) -> Result<Text, anyhow::Error> {
    let mut line = Text::empty();
    add_ending(alloc, &mut line, status, written)?;
    add_number_column(alloc, &mut line, "files", files as u64)?;
    add_number_column(alloc, &mut line, "left", left as u64)?;
    Ok(line)
}
