//! Does one thing as often as asked, and counts what came of it: for scripts of `bench/`, which count its instructions beside the
//! original's. The first line of standard input names the counter, and all that follows is what it counts in.
//!
//! - `scan`: the tokens of the text, up to the one that is refused.
//! - `load`: the documents of the text.
//! - `dump ROUNDS`: the values of the lines, each a value as `rows` reads it, and the bytes of their dumps, made that often.
//! - `print ROUNDS`: the trees of the lines, each a text, and the bytes of what is printed of them, made that often.
//! - `rows`: each line is a case of its own, a counter and its input with a tab between the two.
#![tactic(auto)]

mod counters;
mod documents;
mod dumps;
mod prints;
mod tokens;

use crate::counters::{counted, counted_row};
use std::io;

fn main(rt: HostRuntime) -> Result<(), anyhow::Error> {
    let alloc = rt.alloc();
    let text = io::read_to_string(alloc, rt.stdin())?;
    let (counter, input) = text
        .as_str()
        .split_once('\n')
        .unwrap_or((text.as_str(), ""));
    if counter != "rows" {
        println!(rt; "{}", counted(alloc, counter, input)?.as_str())?;
        return Ok(());
    }
    for line in input.lines() {
        println!(rt; "{}", counted_row(alloc, line)?.as_str())?;
    }
    Ok(())
}
