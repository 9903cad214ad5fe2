//! The documents of a demonstration, one behind the other.
ghost use Rattle.std.specs.Prelude.{◌≡◌, ◌<◌, ◌^◌, IfOk, encode_utf8_all};
ghost use Rattle.snap_demo.specs.Stream.{demo_input};

use crate::numbers::next;
use crate::requests::push_request;
use snap_content::{OutOfMemory, Text};
use std::alloc::Global;

/// The stream of so many requests, whose numbers begin with the seed: each is the document of its tree.
pub fn demo_input(alloc: Global, seed: u64, count: u32) -> Result<Text, OutOfMemory>
    ensures { IfOk result (λ text. encode_utf8_all text ≡ demo_input seed count) }
{
    let mut text = Text::empty();
    let mut number = seed;
    for index in 0..count {
        push_request(&mut text, alloc, index, number)?;
        number = next(number);
    }
    Ok(text)
}
