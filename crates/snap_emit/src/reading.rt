//! The tree of a text, or the reason why there is none.
ghost use Rattle.std.specs.Prelude.{◌≡◌, List, IfOk, IfErr, IsOkAnd};
ghost use Rattle.std.specs.Str.{chars};
ghost use Rattle.snap_content.specs.Plain.{Plain, content_of};
ghost use Rattle.snap_print.specs.Readable.{IsWithin};
ghost use Rattle.snap_content.specs.View.{tree};
ghost use Rattle.snap_parse_events.specs.Nodes.{Node};
ghost use Rattle.snap_parse_laws_json.specs.Bounded.{IsJsonOf};
ghost use Rattle.snap_parse.specs.TextNodes.{AreNodesOf};
ghost use Rattle.snap_emit.specs.Readings.{IsTreeOf, IsTreeIn, IsHeaderTreeOf, IsHeaderIn, IsOfStream, IsReasonIn, IsStrict, IsLenient};
ghost use Rattle.snap_emit.specs.Spelled.{IsTextOf};

use crate::loaded::{Loaded, load_tree};
use crate::refusal::Refusal;
use snap_content::{Content, OutOfMemory};
use std::alloc::Global;

/// The header of a snapshot file.
#[derive(Drop)]
pub struct Header {
    /// The tree that was read.
    pub content: Content,
    /// Whether a number that is no whole number of 128 bits was kept as its text.
    pub number_as_text: bool,
}

/// The tree of what was loaded, or the first reason against it.
fn strict(loaded: Loaded) -> Result<Content, Refusal>
    ensures { IsStrict loaded result }
{
    let Loaded {
        content,
        has_number_text,
        has_alias,
    } = loaded;
    match (has_alias, has_number_text, content) {
        (true, _, content) => {
            drop(content);
            Err(Refusal::Alias)
        }
        (false, true, content) => {
            drop(content);
            Err(Refusal::Number)
        }
        (false, false, None) => Err(Refusal::NoTree),
        (false, false, Some(content)) => Ok(content),
    }
}

/// The header of what was loaded. An alias in it stays left out.
fn lenient(loaded: Loaded) -> Result<Header, Refusal>
    ensures { IsLenient loaded result }
{
    let Loaded {
        content,
        has_number_text,
        has_alias: _,
    } = loaded;
    match content {
        None => Err(Refusal::NoTree),
        Some(content) => Ok(Header {
            content,
            number_as_text: has_number_text,
        }),
    }
}

/// The tree of a YAML text that is one document, or why there is none: the first reason in the order of `Refusal`, but that of a
/// number and of what is no value the one that stands first. The error is that memory is out.
pub fn read_text(alloc: Global, text: &str) -> Result<Result<Content, Refusal>, OutOfMemory>
    ensures nodes { (nodes : List Node) → AreNodesOf (chars text.now) nodes
        → IfOk result (λ read. IsTreeIn nodes read) }
    ensures stream { IfOk result (λ read. IfOk read
        (λ made. IsOfStream (λ node. IsTreeOf node made))) }
    ensures cause { IfOk result (λ read. IfErr read (λ why. IsReasonIn (chars text.now) why)) }
    ensures read { (t : Plain) → IsWithin t → IsTextOf (chars text.now) t
        → IfOk result (λ read. IsOkAnd read (λ made. tree made ≡ content_of t)) }
    ensures json { (t : Plain) → IsWithin t → IsJsonOf t (chars text.now)
        → IfOk result (λ read. IsOkAnd read (λ made. tree made ≡ content_of t)) }
{
    match load_tree(alloc, text)? {
        Err(refusal) => Ok(Err(refusal)),
        Ok(loaded) => Ok(strict(loaded)),
    }
}

/// The same for the header of a snapshot file: an alias in it is left out, and such a number is kept as its text.
pub fn read_header(alloc: Global, text: &str) -> Result<Result<Header, Refusal>, OutOfMemory>
    ensures nodes { (nodes : List Node) → AreNodesOf (chars text.now) nodes
        → IfOk result (λ read. IsHeaderIn nodes read) }
    ensures stream { IfOk result (λ read. IfOk read
        (λ header. IsOfStream (λ node. IsHeaderTreeOf node header))) }
    ensures cause { IfOk result (λ read. IfErr read (λ why. IsReasonIn (chars text.now) why)) }
{
    match load_tree(alloc, text)? {
        Err(refusal) => Ok(Err(refusal)),
        Ok(loaded) => Ok(lenient(loaded)),
    }
}
