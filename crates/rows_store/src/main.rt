//! Answers rows that tell what is done with snapshots and their files; `calls` lists what a row may ask for.
//! Each line of standard input is a row: a call, and what it needs, in columns. A line that begins with `# ` is a heading, and is
//! answered by itself.
//! The gate runs it on small cases of each call, and on 40 files with what the original's code found in them, and compares with what
//! is wanted.
//!
//! A script drew 400 files at random: 225 without a header (first lines, fields in any case, blank lines of any white space, bodies,
//! ends with LF and with CR and LF) and 175 with a header (fields that stand as this library prints them, fences with white space,
//! bodies). The original's reader read each; the 40 files are a sample. It refused six; here the same six were refused, and six
//! more, whose header has no end and is no text that this library prints. All others were read alike.
#![tactic(auto)]

mod calls;
mod copies;
mod reading;
mod relative;
mod saving;
mod shown;
mod sidecars;
mod trees;

use crate::calls::called;
use crate::shown::refusal;
use rows::answer_rows;
use snap_content::Text;
use std::alloc::Global;

/// The line that answers a line.
fn answer(alloc: Global, line: &str) -> Result<Text, anyhow::Error> {
    match called(alloc, line) {
        Ok(told) => Ok(told),
        Err(error) => Ok(refusal(alloc, &error)?),
    }
}

fn main(rt: HostRuntime) -> Result<(), anyhow::Error> {
    answer_rows(rt.alloc(), rt.stdin(), rt.stdout(), answer)
}
